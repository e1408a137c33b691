//! The file in which a solid names each shell, each face and each loop once: what it names again is left out.
#![tactic(auto)]

mod copying;
mod leaving;
mod marks;
mod numbers;
mod places;

pub use leaving::{NamedOnce, once};
pub use places::Dropped;
