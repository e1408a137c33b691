//! Which faces of a shell are reached from its first, by edges alone.
//!
//! A row is a use of an edge by a loop (a coedge or half-edge), and its mate the opposite one. A
//! face is a neighbour of another where a row of the one has its mate on the other. The search
//! serves closed shells, in which each row has a mate, and open ones, in which border rows have none.
#![tactic(auto)]

mod closed;
mod fault;
mod flood;
mod law;
mod one_mate;
mod reaching;

pub use closed::{ReachList, reach};
pub use fault::ReachFault;
pub use law::{one_reach_order, some_reach_order};
pub use one_mate::Mates;
pub use reaching::reach_faces;
