//! The file of one solid, with face flags under which each of its edges is used in opposite directions.
#![tactic(auto)]

mod flag_values;
mod law;
mod reflagging;
mod reorienting;
mod table;

pub use law::{
    one_reorientation, reflagged_is_extracted, reflagged_is_made, reflagged_solid_is_turned,
};
pub use reorienting::into_reorient;
