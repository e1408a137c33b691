//! The pieces into which a changed shell falls, as the shells of a solid with numbers of its own.
//!
//! Each edge and each vertex of that solid stands for a name of the change. The pieces are made at the cost of the changed shell
//! alone, and then what was made is compared with the change, name by name: so nothing rests on how they are made.
#![tactic(auto)]

mod comparing;
mod ends;
mod gathering;
mod making;
mod name_places;
mod names;
mod numbering;
mod parts;
mod pieces;
mod placing;
mod uses;

pub use pieces::{Pieces, pieces_of};
