//! Which value of a record is the bad one where a rule on the records of a solid fails, and what is due there.
#![tactic(auto)]

mod bad_values;
mod due;
mod law;
mod misfit;
mod named;
mod naming;

pub use bad_values::{BadValue, bad_value};
pub use due::{Counted, Due, ValueKind};
pub use law::misfits_are_first;
pub use misfit::{Misfit, first_misfit};
pub use named::{entry_named, item_count, values_named};
pub use naming::{Naming, first_naming};
