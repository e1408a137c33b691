//! What is said of a bad file: the line that fails as it stands there, and what the file looks like.
#![tactic(auto)]

mod bad_file;
mod facts;
mod fields;
mod line_kinds;
mod look;
mod texts;
mod whole;

pub use bad_file::put_bad_file;
pub use fields::Field;
pub use look::{FileKind, LineKind};
