//! The commands of `igesolid-repair`: what they owe for the words and the bytes that they are given.
#![tactic(auto)]

mod command;
mod law;
mod reorienting;
mod replies;
mod report;
mod request;

pub use command::run_repair;
pub use command_replies::Words;
pub use law::{in_layout_is_told, one_answer, one_reorient_answer, some_answer, unoriented_is_no};
pub use request::{LineCommand, Request, file_named};
