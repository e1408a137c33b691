//! Flags for the faces of a shell under which each edge is used in opposite directions, rings of rows that no flags satisfy, and a
//! checker of both.
//!
//! A row is a use of an edge by a loop (a coedge or half-edge), and its partner the other row of its edge, whatever the
//! directions. A face's flag says whether its loops are walked as they stand or backwards.
#![tactic(auto)]

mod checker;
mod checking;
mod crossing;
mod fault;
mod graph;
mod law;
mod line;
mod lists;
mod naming;
mod reading;
mod rows_by_edge;
mod writing;

pub use checker::OrientChecker;
pub use crossing::{Crossing, flip};
pub use fault::{OrientFailing, OrientFault, OrientRule};
pub use graph::{Graph, graph_of};
pub use law::{flags_or_ring, one_orient_line, rings_refuse_flags};
pub use line::{OrientLine, OrientLineFault};
pub use lists::{FlagList, NumberList, Orientation};
pub use reading::orient_line;
pub use writing::write_orient_line;
