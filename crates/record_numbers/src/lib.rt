//! Records that are equal, by numbers.
//!
//! Two records are equal if they have the same type and form, equal matrices, and as many own values of which each is equal:
//! numbers as numbers, however they are spelled, texts byte by byte, and pointers if what they name is equal.
#![tactic(auto)]

mod key;
mod keys;
mod marks;
mod numbering;
mod search;
mod told;

pub use keys::{KeyNumbers, number_by_key};
pub use numbering::record_numbers;
