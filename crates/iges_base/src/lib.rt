//! What all crates share: bytes, a text that grows, a list, spaces, digits, integers and parts of reals in a text, the number of an entry, that
//! memory ran out, what becomes of memory that isn't needed, and how large a file may be.
#![tactic(auto)]

mod bytes;
mod column;
mod counting;
mod digits;
mod entry_no;
mod exponent;
mod front;
mod leading_digits;
mod list;
mod mantissa;
mod memory;
mod no_memory;
mod out;
mod short_text;

pub use bytes::Bytes;
pub use column::column_number;
pub use counting::about_count;
pub use digits::{is_digits, low_digit, unsigned};
pub use entry_no::EntryNo;
pub use exponent::power_len;
pub use front::{trimmed, without_front_spaces};
pub use leading_digits::{LeadingDigits, digits_len, digits_of};
pub use list::ItemList;
pub use mantissa::{Mantissa, mantissa_of};
pub use memory::Memory;
pub use no_memory::NoMemory;
pub use out::{Out, put_number, write_number};
pub use short_text::ShortText;

/// The most bytes that a file may have, read or written: 2,000,000 lines of 82 bytes.
pub const FILE_LIMIT: u64 = 164_000_000;

/// The most lines that a section may have: columns 74 to 80 of a line hold its number in its section, counted from 1
/// (IGES 5.3, 2.2.4).
pub const LINE_LIMIT: u64 = 9_999_999;

/// The most entries that a directory may have: each takes two of the lines that `LINE_LIMIT` lets a section have
/// (IGES 5.3, 2.2.4.4).
pub const ENTRY_LIMIT: u64 = 4_999_999;
