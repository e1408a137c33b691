//! Whether a change of a shell fits: what it may be, item by item.
#![tactic(auto)]

mod covering;
mod fitting;
mod new_names;

pub use covering::covers;
pub use fitting::{fits, fits_with};
pub use new_names::names_new;
