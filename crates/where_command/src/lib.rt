//! The command `igesolid-where`: what it owes for the words and the bytes that it is given.
#![tactic(auto)]

mod asked;
mod command;
mod law;
mod reading;
mod replies;

pub use asked::{Asked, file_named};
pub use command::run_where;
pub use command_replies::Words;
pub use law::{closed_is_told, one_answer, told_remedies_pass};
