//! A shell as flat lists that steps of a remedy change, and what its rows are then.
//!
//! Faces, loops, uses, edges and vertices are numbered from 0 within the shell, so that each list is as long as the shell.
//! Nothing is proved here but that it is safe and ends: what a search finds is judged apart.
#![tactic(auto)]

mod cells;
mod classes;
mod facts;
mod known_facts;
mod like_lists;
mod memory;
mod reading;
mod sets;
mod table;
mod trial;

pub use cells::{NONE, at, is_set, item_at, more, put, put_item, set, short};
pub use classes::{Key, classes_of, key_of};
pub use facts::{EdgeFact, FaceFact, Facts, LoopFact, VertexFact};
pub use known_facts::facts_of;
pub use like_lists::{Entry, list_classes};
pub use memory::Memory;
pub use sets::{Found, Sets};
pub use table::{Gap, Row, Table, mate, start_of, table_after, table_of};
pub use trial::{
    Rim, RimRow, Trial, TrialEdge, TrialUse, TrialVertex, VertexKind, copy_of, first_trial, taken,
};
