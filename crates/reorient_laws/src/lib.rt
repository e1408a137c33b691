//! The laws of reoriented solids.
#![tactic(auto)]

mod law;

pub use law::{
    own_flags_stay, reoriented_again, reoriented_is_closed, reoriented_is_writable,
    solid_is_reoriented, written_is_reoriented,
};
