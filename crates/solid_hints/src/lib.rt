//! All that fails in a solid, shell by shell, and the hints on it: remedies that were tried.
#![tactic(auto)]

mod flags;
mod hinted_shells;
mod remedies;
mod shell_faults;

pub use hinted_shells::{HintedSolid, put_hint};
pub use shell_faults::{AllFaults, all_faults, failing_shells, shell_at};
