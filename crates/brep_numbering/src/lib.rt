//! Numbers for the edges and vertices of lists; and lists, marks and numbers of entries, found by the numbers of entries.
#![tactic(auto)]

mod marks;
mod number_set;
mod numbering;
mod positions;
mod slots;
mod table;

pub use marks::{Mark, Marks};
pub use number_set::NumberSet;
pub use numbering::Numbering;
pub use table::ListTable;
