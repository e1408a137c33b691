//! What is due, and how the caller gets it.

ghost use Rattle.command_replies.specs.Answer.{code_of};
ghost use Rattle.igesolid_c.specs.Replies.{IsDue, IsDueOfRepair, IsDueOfWhere, IsNone, IsSettled};
ghost use Rattle.std.specs.Prelude.{◌≡◌, IfOk, MatchResult};

use crate::source::ByteSource;
use crate::text::TextSink;
use crate::words::words_in;
use command_replies::Answer;
use iges_base::NoMemory;
use iges_solid_cmd::run;
use repair_commands::run_repair;
use std::alloc::Global;
use where_command::run_where;

// The status where memory ran out.
const NO_MEMORY: u32 = 6;

/// A text that is given to a caller in C, as a pointer and a length. No call reads what is there, or frees it.
#[repr(C)]
#[derive(Drop)]
pub struct Given {
    pub bytes: &'static [u8],
}

/// A status, and the text that goes with it.
#[derive(Drop)]
pub struct Replied {
    pub status: u32,
    pub text: TextSink,
}

// What a run came to: no source in memory fails, and the sink only where memory runs out.
fn finished(answer: Answer, text: TextSink) -> Result<Replied, NoMemory>
    ensures { IfOk result (λ r. IsSettled answer × (r.status ≡ code_of answer)
        × (r.text ≡ text)) }
{
    match answer {
        Answer::ReadFault | Answer::WriteFault | Answer::NoMemory => Err(NoMemory),
        _ => Ok(Replied {
            status: u32::from(answer.code()),
            text,
        }),
    }
}

/// What is due for words of `igesolid`. It errs only where memory runs out.
pub fn reply(
    alloc: Global,
    words: &[u8],
    file: &[u8],
    certificate: &[u8],
) -> Result<Replied, NoMemory>
    ensures { IfOk result (λ r. IsDue words.now file.now certificate.now r.status r.text.text) }
{
    let words = words_in(alloc, words)?;
    let mut file = ByteSource::new(file);
    let mut certificate = ByteSource::new(certificate);
    let mut text = TextSink::new(alloc);
    let answer = run(alloc, &words, &mut file, &mut certificate, &mut text);
    finished(answer, text)
}

/// What is due for words of `igesolid-where`. It errs only where memory runs out.
pub fn where_reply(alloc: Global, words: &[u8], file: &[u8]) -> Result<Replied, NoMemory>
    ensures { IfOk result (λ r. IsDueOfWhere words.now file.now r.status r.text.text) }
{
    let words = words_in(alloc, words)?;
    let mut file = ByteSource::new(file);
    let mut text = TextSink::new(alloc);
    let answer = run_where(alloc, &words, &mut file, &mut text);
    finished(answer, text)
}

/// What is due for words of `igesolid-repair`. It errs only where memory runs out.
pub fn repair_reply(alloc: Global, words: &[u8], file: &[u8]) -> Result<Replied, NoMemory>
    ensures { IfOk result (λ r. IsDueOfRepair words.now file.now r.status r.text.text) }
{
    let words = words_in(alloc, words)?;
    let mut file = ByteSource::new(file);
    let mut text = TextSink::new(alloc);
    let answer = run_repair(alloc, &words, &mut file, &mut text);
    finished(answer, text)
}

/// Gives a reply to the caller: its text and its status, or the status that says that memory ran out.
pub fn hand_over(reply: Result<Replied, NoMemory>, text: &mut Given) -> u32
    ensures { MatchResult reply
        (λ r. (result ≡ r.status) × (text.new.bytes.now ≡ r.text.text))
        (λ _. IsNone result text.new.bytes.now) }
{
    match reply {
        Ok(reply) => {
            text.bytes = reply.text.kept();
            reply.status
        }
        Err(NoMemory) => {
            text.bytes = &[];
            NO_MEMORY
        }
    }
}
