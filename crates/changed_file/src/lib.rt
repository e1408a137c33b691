//! The file in which shells of a solid are changed.
//!
//! No entry changes but the solid, the changed shells, the loops of their kept faces, and removed faces with their loops, which
//! become of type 0 where nothing points to them any more. New entries stand behind all others.
#![tactic(auto)]

mod changing;
mod draft;
mod emptying;
mod faces;
mod law;
mod making;
mod marking;
mod new_entries;
mod rewriting;

pub use changed_records::ChangeFault;
pub use draft::{Slots, blank_slots, put_values};
pub use law::others_stay;
pub use making::changed;
pub use rewriting::with_slots;
