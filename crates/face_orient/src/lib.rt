//! The maker of orientations: flags for the faces of a shell under which each edge is used in opposite directions, or a ring of rows
//! that no flags satisfy. It passes on what checks them.
//!
//! A row is a use of an edge by a loop (a coedge or half-edge), and its partner the other row of its edge, whatever the
//! directions. A face's flag says whether its loops are walked as they stand or backwards.
#![tactic(auto)]

mod finding;
mod flag_walk;
mod heads;
mod naming;
mod orienting;
mod ring;

pub use orient_certificate::{
    FlagList, NumberList, OrientChecker, OrientFailing, OrientFault, OrientLine, OrientLineFault,
    OrientRule, Orientation, flags_or_ring, one_orient_line, orient_line, rings_refuse_flags,
    write_orient_line,
};
pub use orienting::orient;
