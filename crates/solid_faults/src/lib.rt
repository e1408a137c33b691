//! All that fails in a shell, rule by rule.
//!
//! A gap is a use of a loop that ends at another vertex than the next one starts at. A part is all
//! faces that chains of shared edges join. A fan is a cycle of turns among the rows that start at a
//! vertex.
#![tactic(auto)]

mod closing;
mod edge;
mod failing;
mod fan;
mod fanning;
mod flagging;
mod gap;
mod law;
mod part;
mod shared;
mod tallying;
mod unlinking;

pub use closing::is_closed;
pub use edge::{Unpaired, rows_of_edge};
pub use failing::{Linking, ShellFaults, apart_in, faults, faults_of};
pub use fan::Unlinked;
pub use flagging::is_closed_flagged;
pub use gap::{Gap, gaps};
pub use law::faults_are_definite;
pub use part::firsts;
pub use shared::{below_next, below_shell};
pub use tallying::{UseCounts, use_counts};
