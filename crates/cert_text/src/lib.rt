//! The text of lines, as all certificates and orientations have it: words and numbers, one space before each number, and LF at the end.
#![tactic(auto)]

mod fault;
mod number;
mod words;
mod writing;

pub use fault::{Illegal, Misfit};
pub use number::{are_numbers, next_number, one_number, two_numbers};
pub use words::{after_byte, after_word, is_word};
pub use writing::{put_line, put_numbers};

/// The most bytes that a certificate may have to be read.
pub const CERT_LIMIT: u64 = 536_870_912;
