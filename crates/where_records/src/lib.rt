//! The paragraph that says where a rule on the records of a solid fails.
#![tactic(auto)]

mod facts;
mod paragraph;
mod why;

pub use paragraph::{FailingRecord, put_record};
