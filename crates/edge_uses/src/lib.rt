//! The edge uses of a shell: which follow one another, which are mates, and what shells share.
//!
//! A row is a use of an edge by a loop (a coedge or half-edge); its mate is the opposite one, on the same edge. A turn
//! leads from a row to the next one about the vertex where it starts: the row that follows its mate.
#![tactic(auto)]

mod apart;
mod before;
mod building;
mod fault;
mod joining;
mod paired;
mod pairing;
mod places;
mod reading;
mod row;
mod table;
mod tally;

pub use apart::first_shared;
pub use before::VerticesBefore;
pub use building::push_all_used;
pub use fault::PairFault;
pub use joining::{Unjoined, begins_at, ends_at, first_unjoined, next_place, starts_at};
pub use paired::Paired;
pub use pairing::pair;
pub use places::{point_at, row_at, turned, vertex_at};
pub use reading::rows;
pub use row::Row;
pub use table::Rows;
pub use tally::{Seen, Tally, tally_of};
