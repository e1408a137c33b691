//! Where the entries of a file and their records stand in its lines, and the values of a record in its text.
#![tactic(auto)]

mod fields;
mod file_line;
mod item_end;
mod law;
mod placed_file;
mod places;
mod reading;
mod span;

pub use file_line::{from_line, has_cr, has_lf, line_of};
pub use law::one_placed_file;
pub use placed_file::{PlacedFile, read_placed_file};
pub use places::{Places, RecordLines};
pub use span::{Span, value_span};
