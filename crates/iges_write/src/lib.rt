//! The canonical text of a file, and the laws that it is one and reads back.
#![tactic(auto)]

mod column;
mod counts;
mod entries;
mod entry;
mod fault;
mod law;
mod line_text;
mod page;
mod room;
mod start;
mod writing;

pub use fault::WriteFileFault;
pub use law::{every_file_has_one_text, every_read_file_can_be_made, every_text_reads_back};
pub use room::records_room;
pub use writing::{into_text, write_file};
