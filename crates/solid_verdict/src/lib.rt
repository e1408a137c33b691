//! When a solid of a file is closed, and its verdict: the rules on its records first, and then those on its shells.
#![tactic(auto)]

mod law;

pub use law::one_verdict;
