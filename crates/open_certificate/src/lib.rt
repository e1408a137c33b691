//! Certificates of open shells: which shells are sound, which lines are legal, and a checker that judges each line by itself.
//!
//! A row is a use of an edge by a loop (a coedge or half-edge). In an open shell an edge has two rows, one along it and one
//! against it, which are mates; or it has one, which is a border row. A turn leads from a row to the next one about the
//! vertex where it starts: the row that follows its mate. A border row has no turn.
#![tactic(auto)]

mod checker;
mod fitting;
mod law;
mod opening;
mod parsed;
mod parts;
mod state;
mod verdict;
mod writing;

pub use cert_lines::ReachRows;
pub use cert_text::{Illegal, Misfit};
pub use checker::OpenChecker;
pub use law::{
    borders_are_cycles, closed_is_sound, legal_or_first_bad, one_first_false, one_line, soundness,
};
pub use opening::{open_head, shell_number};
pub use parts::{Borders, OpenCertificate, OpenCorner, OpenCorners, OpenEdge, OpenEdges};
pub use verdict::{OpenFailing, OpenRule};
pub use writing::write_open;
