//! The laws that a solid has the verdict that it had in its file, once it is extracted, and once the unused items of its lists
//! are dropped.
#![tactic(auto)]

mod law;

pub use law::{
    compacted_again, compacted_is_writable, compacted_keeps_verdict, extracted_is_writable,
    places_are_kept, relabelled_solids_fail_alike, solid_is_compacted, solid_is_kept,
    solid_is_ranked, verdict_is_compacted, verdict_is_kept, verdict_is_ranked, written_again,
    written_is_compacted, written_is_extracted, written_keeps_verdict,
};
