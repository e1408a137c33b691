//! Where in the lines of a file a value of a record stands.
#![tactic(auto)]

mod lines;
mod record_text;

pub use lines::{put_mark, put_text, put_value_lines};
