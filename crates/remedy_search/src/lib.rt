//! What may be done to a shell that fails: changes of its records, each tried, the cheapest first.
#![tactic(auto)]

mod ending;
mod found;
mod searching;

pub use searching::search;
