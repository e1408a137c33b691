//! What an entry refers to: the pointers among the own values of its type, its matrix, its colour and its names.
#![tactic(auto)]

mod adding;
mod entry_set;
mod fault;
mod group;
mod group_places;
mod layout;
mod listed;
mod numbers;
mod own;
mod own_kinds;
mod own_table;
mod place;
mod record;
mod reference_numbers;
mod referring;

pub use adding::add_numbers;
pub use entry_set::{EntryList, EntrySet, mark_at};
pub use fault::{ExtractReason, RefFault};
pub use group::Group;
pub use numbers::{names_entry, push_names};
pub use own::Own;
pub use place::number_of;
pub use record::{Record, record_of};
pub use reference_numbers::{RefScratch, Shape, put_refs, refs, shape_of, shape_with};
pub use referring::references;
