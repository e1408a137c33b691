//! A file: its start lines, its global and its entries with their values.
#![tactic(auto)]

mod copying;
mod file;
mod global;
mod global_pass;
mod head;
mod kinds;
mod law;
mod part;
mod passage;
mod pointer;
mod reading;
mod record;
mod records_read;
mod solids;

pub use copying::{begun, copied_values, push_copies};
pub use file::File;
pub use global::Global26;
pub use law::every_text_has_one_reading;
pub use reading::{ReadFileFault, read_file, read_sections, take_sections};
