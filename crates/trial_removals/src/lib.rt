//! Which faces of a shell may be too many.
#![tactic(auto)]

mod copying;
mod crowding;
mod likeness;
mod patches;
mod removing;
mod sheets;
mod strays;
mod walls;

pub use copying::copies;
pub use likeness::like_faces;
pub use removing::{Removal, remove};
pub use strays::removals;
