//! The maker of certificates of open shells; it passes on what checks them.
//!
//! A row is a use of an edge by a loop (a coedge or half-edge). In an open shell an edge has two rows, one along it and one
//! against it, which are mates; or it has one, which is a border row. A turn leads from a row to the next one about the
//! vertex where it starts: the row that follows its mate. A border row has no turn.
#![tactic(auto)]

mod bordering;
mod fanning;
mod fault;
mod heads;
mod judging;
mod law;
mod making;
mod mated;
mod mating;
mod naming;

pub use fault::OpenFault;
pub use law::sound_exactly_where_accepted;
pub use making::open_certify;
pub use open_certificate::{
    Borders, Illegal, Misfit, OpenCertificate, OpenChecker, OpenCorner, OpenCorners, OpenEdge,
    OpenEdges, OpenFailing, OpenRule, ReachRows, borders_are_cycles, closed_is_sound,
    legal_or_first_bad, one_first_false, one_line, open_head, shell_number, soundness, write_open,
};
