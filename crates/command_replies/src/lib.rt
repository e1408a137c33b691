//! Replies: what each command answers and writes, the words and the sources that it is given, and how it ends.
#![tactic(auto)]

mod answer;
mod finishing;
mod number;
mod program;
mod reply;
mod sources;
mod words;

pub use answer::Answer;
pub use finishing::finish;
pub use number::{entry_number_in, number_in};
pub use program::{source_of, words_given};
pub use reply::{
    Reply, Stop, accepted, bad_file, failed, failed_by, illegal, no_solid, put_accepted,
    solid_failed, too_large, usage_reply,
};
pub use sources::{buffer, bytes_in, file_in};
pub use words::Words;
