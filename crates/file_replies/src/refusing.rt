//! The line `no extract`, with a word for each reason.

ghost use Rattle.file_replies.specs.Written.{extract_word, no_extract_line};
ghost use Rattle.std.specs.Prelude.{◌≡◌, IfOk};

use command_replies::{Answer, Reply};
use entry_references::ExtractReason;
use iges_base::{EntryNo, NoMemory, Out, write_number};
use std::alloc::Global;

fn word_of(reason: ExtractReason) -> &'static str
    ensures { result.now ≡ extract_word reason }
{
    match reason {
        ExtractReason::NotSolid => "not-solid",
        ExtractReason::Unlisted => "unlisted",
        ExtractReason::Layout => "layout",
        ExtractReason::Dangling => "dangling",
    }
}

/// The reply for a solid that can't be extracted.
pub fn refused(alloc: Global, entity: EntryNo, reason: ExtractReason) -> Result<Reply, NoMemory>
    ensures { IfOk result (λ reply. (reply.answer ≡ Answer.NoExtract)
        × (reply.text ≡ no_extract_line entity.0 reason)) }
{
    let mut out = Out::new(alloc);
    out.put(b"no extract ")?;
    write_number(&mut out, u64::from(entity.0))?;
    out.put(b" ")?;
    out.put(word_of(reason).as_bytes())?;
    out.put(b"\n")?;
    Ok(Reply {
        answer: Answer::NoExtract,
        text: out.into_bytes(),
    })
}
