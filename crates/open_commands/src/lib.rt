//! What certifying an open shell of a file and verifying such a certificate answer and write, and what that says of the
//! file.
#![tactic(auto)]

mod certifying;
mod checking;
mod judging;
mod law;
mod opening;
mod verifying;

pub use certifying::certify_shell;
pub use law::{
    accepted_is_checked, borders_are_cycles, one_open_answer, one_verdict, some_open_answer,
    sound_exactly_where_accepted,
};
pub use verifying::verify_shell;
