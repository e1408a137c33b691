//! Laws of what is told where a rule on the records of a solid fails.
#![tactic(auto)]

mod law;

pub use law::{bad_values_break, paths_lead_to_false};
