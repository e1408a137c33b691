//! A law of what is owed by `run_where`.
#![tactic(auto)]

mod law;

pub use law::something_is_due;
