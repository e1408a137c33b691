//! Laws of what is found in a shell.
#![tactic(auto)]

mod law;

pub use law::{fans_are_rounds, something_is_found};
