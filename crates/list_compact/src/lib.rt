//! The file of one solid, in which the lists of edges and vertices hold only what is used.
#![tactic(auto)]

mod compacting;
mod dropping;
mod entry_rows;
mod fault;
mod law;
mod marking;
mod marks;
mod place;
mod rank_table;
mod record_at;
mod values;

pub use compacting::{compact, into_compact};
pub use fault::CompactFault;
pub use law::{dropped_is_made, dropped_is_not_refused, extracted_is_faultless, places_still_hold};
