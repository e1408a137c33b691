//! Values of records that are equal: numbers as numbers, however they are spelled.
//!
//! `1.`, `1.0`, `10.E-1`, `1D0`, `+1.` and the integer 1 are equal. Nothing is rounded. Each value has one canonical text,
//! which two values share exactly if they are equal; so its order as bytes sorts values and never parts equal ones.
#![tactic(auto)]

mod canonical;
mod ends;
mod exponent;
mod key;
mod law;
mod word;

pub use canonical::put_canonical;
pub use key::{put_key, put_text};
pub use law::{canonical_texts_decide, keys_decide};
