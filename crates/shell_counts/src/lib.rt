//! How many edge uses, edges and vertices a shell has.
#![tactic(auto)]

mod counting;

pub use counting::{ShellCounts, shell_counts};
