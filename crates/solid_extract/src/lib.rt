//! The file of one solid.
#![tactic(auto)]

mod blank_file;
mod extraction;
mod fault;
mod law;
mod new_values;
mod reaching;
mod renaming;

pub use blank_file::blank;
pub use entry_references::{EntryList, ExtractReason, RefFault, references};
pub use extraction::{Extraction, extract, extract_numbered, into_extract, into_extract_numbered};
pub use fault::ExtractFault;
pub use law::{
    extracted_again, extracted_is_made, items_are_kept, one_extraction, records_are_kept,
};
