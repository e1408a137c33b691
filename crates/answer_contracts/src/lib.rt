//! Calls of the commands, each passed on with clauses of its own. They are the clauses of the call, or follow from them, so
//! what they refuse the call's own contract refuses. Each edit in must-fail turns one answer.
#![tactic(auto)]

mod replies;
mod running;
mod verdicts;

pub use replies::{
    extract_reply, failing_reply, mending_reply, refused_file, remedies_told, status_of,
};
pub use running::{answer_of, ended, opened};
pub use verdicts::verdict_on;
