//! The walk through the records of a solid: what their places must name, and the solid that they describe.
#![tactic(auto)]

mod fault;
mod law;
mod lists;
mod members;
mod naming;
mod once;
mod records;
mod shell_walking;
mod state;
mod tuples;
mod walking;

pub use fault::WalkFault;
pub use law::{
    open_places_are_definite, places_are_definite, shell_solid_is_numbered, solid_is_numbered,
};
pub use shell_walking::walk_shell;
pub use walking::{Walker, walk};
