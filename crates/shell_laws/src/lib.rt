//! What leaves a shell closed: turning all its directions, and numbering its edges and vertices otherwise.
#![tactic(auto)]

mod law;

pub use law::{renumbered_shell_stays_closed, turned_shell_stays_closed};
