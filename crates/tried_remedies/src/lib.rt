//! Remedies of a shell that were judged: each fits, and each passes.
#![tactic(auto)]

mod judging;

pub use judging::{tried_before, tried_remedies};
