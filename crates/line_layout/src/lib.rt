//! From any bytes a file in the layout of the fixed form, with the content columns of its lines as they were, or the
//! first line of which the content can't be told apart for certain; and what is changed to make that file.
#![tactic(auto)]

mod change;
mod changing;
mod columns;
mod counting;
mod fault;
mod judging;
mod letters;
mod marks;
mod piece;
mod relaying;
mod row;
mod strays;
mod tallying;

pub use change::{Change, ChangeCount};
pub use counting::LineCounts;
pub use fault::{LayoutFault, LayoutReason, RelaidFault};
pub use judging::Judged;
pub use letters::Section;
pub use relaying::relaid;
pub use tallying::tally;
