//! How much the records of solids name: whether it takes long to judge them.
//!
//! Each value takes a byte of the file at least, and an entry three lines of 80 bytes, of which 64 hold values at most; so where
//! each loop is named once, the sizes of all solids together are no more than the bytes of the file.
#![tactic(auto)]

mod records;
mod sizes;

pub use sizes::solid_sizes;

/// The most that is counted of a size; a file within `FILE_LIMIT` has fewer values.
pub const MOST: u64 = 4_294_967_295;

/// What a loop's size counts beside its values.
pub const ENTRY: u64 = 100;
