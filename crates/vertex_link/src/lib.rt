//! One cycle of rows round each vertex of a shell.
//!
//! A row is a use of an edge by a loop (a coedge or half-edge), and its mate the opposite one. A
//! turn leads from a row to the next one about the vertex where it starts: the row that follows its
//! mate.
#![tactic(auto)]

mod corners;
mod fault;
mod linking;
mod walking;

pub use corners::Links;
pub use fault::LinkFault;
pub use linking::links;
pub use solid_data::Corner;
