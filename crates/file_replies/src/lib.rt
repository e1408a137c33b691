//! What commands answer that write a file: its text, that this is too large, or why a solid can't be extracted; and the reply to
//! `extract`.
#![tactic(auto)]

mod extracting;
mod refusing;
mod writing;

pub use extracting::extract_solid;
pub use refusing::refused;
pub use writing::{written, written_new};
