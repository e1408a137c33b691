//! The values of the records that a change of a shell changes, and of the new ones.
#![tactic(auto)]

mod fault;
mod list_values;
mod loops;
mod named;
mod putting;
mod shells;
mod tuples;

pub use fault::ChangeFault;
pub use list_values::{edge_list_values, vertex_list_values};
pub use loops::loop_values;
pub use named::{Item, NewLists};
pub use putting::push_number;
pub use shells::{FaceFlag, new_shell_values, new_solid_values, shell_values, solid_values};
