//! Words, lines and tables of the text that says where a solid fails: how values, vertices, faces and types are written.
#![tactic(auto)]

mod cutting;
mod listing;
mod masking;
mod places;
mod sentences;
mod type_names;
mod types;
mod words;

pub use cutting::put_text;
pub use iges_base::put_number;
pub use listing::{
    EntryNumbers, Listing, put_more_facts, put_more_items, put_more_words, shown_members,
};
pub use masking::put_masked;
pub use places::{put_face, put_vertex};
pub use sentences::{put_reason_sentence, put_rule_sentence};
pub use types::{put_type, put_type_word};
pub use words::{put_signed, put_value, put_word};
