//! The rules on shells: when each of JOIN, PAIR, REACH, LINK and APART holds, in which order they are judged and what each
//! names, and when a shell and a solid are closed. JOIN and APART, which no certificate shows, are judged here.
#![tactic(auto)]

mod checks;
mod fault;
mod judging;
mod law;
mod naming;

pub use checks::{check_shells, shell_at};
pub use fault::CheckFault;
pub use judging::{apart, join};
pub use law::shells_are_definite;
pub use naming::at_vertex;
