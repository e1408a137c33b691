//! The commands of `igesolid`, `igesolid-where` and `igesolid-repair`, for callers in C, in Python and in web pages.
#![tactic(auto)]

mod replying;
mod source;
mod text;
mod words;

ghost use Rattle.igesolid_c.specs.Replies.{IsDue, IsDueOfRepair, IsDueOfWhere, IsNone};
ghost use Rattle.std.specs.Prelude.{◌⊎◌};

pub use crate::replying::Given;
use crate::replying::{hand_over, repair_reply, reply, where_reply};
use std::alloc::Global;

/// Answers words of `igesolid`, which line feeds separate, for the bytes of a file and of a certificate. Gives the program's status,
/// and sets `text` to the text that is due. Where memory runs out the status is 6, and there is no text.
///
/// The text stays until the caller frees it by `igesolid_free`, which is C (packaging/c/heap.c).
#[unsafe(no_mangle)]
pub extern "C" fn igesolid_run(
    alloc: Global,
    words: &[u8],
    file: &[u8],
    certificate: &[u8],
    text: &mut Given,
) -> u32
    ensures { IsNone result text.new.bytes.now
        ⊎ IsDue words.now file.now certificate.now result text.new.bytes.now }
{
    hand_over(reply(alloc, words, file, certificate), text)
}

/// The same for words of `igesolid-where`.
#[unsafe(no_mangle)]
pub extern "C" fn igesolid_where(alloc: Global, words: &[u8], file: &[u8], text: &mut Given) -> u32
    ensures { IsNone result text.new.bytes.now
        ⊎ IsDueOfWhere words.now file.now result text.new.bytes.now }
{
    hand_over(where_reply(alloc, words, file), text)
}

/// The same for words of `igesolid-repair`.
#[unsafe(no_mangle)]
pub extern "C" fn igesolid_repair(alloc: Global, words: &[u8], file: &[u8], text: &mut Given) -> u32
    ensures { IsNone result text.new.bytes.now
        ⊎ IsDueOfRepair words.now file.now result text.new.bytes.now }
{
    hand_over(repair_reply(alloc, words, file), text)
}
