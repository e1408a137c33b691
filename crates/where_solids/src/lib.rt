//! What is said of a solid of a file: the verdict, and where and why it fails.
#![tactic(auto)]

mod fault_paragraphs;
mod gaps;
mod hints;
mod lines;
mod record_texts;
mod shell_texts;
mod telling;
mod verdicts;

pub use hints::put_no_solid;
pub use lines::{put_count, put_failing};
pub use telling::{Told, tell};
pub use verdicts::verdict;

/// The most gaps of a solid that are all written.
pub const GAP_LIMIT: usize = 10_000;
