//! What the directory and the records say of entities: their type, level, colour, matrix, label and names.
#![tactic(auto)]

mod colour;
mod described;
mod entities;
mod facts;
mod label;
mod names;

pub use entities::put_entities;
pub use facts::put_entity_facts;
