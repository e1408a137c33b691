//! The replies to what is asked of the lines of a file.

ghost use Rattle.iges_base.specs.declared.TheConstants.{FILE_LIMIT};
ghost use Rattle.repair_commands.specs.Due.{OfLines, IsLaid, OfLayout, OfNoLayout};
ghost use Rattle.repair_commands.specs.Texts.{bad_layout_line, changes_text, in_layout_line};
ghost use Rattle.std.specs.Prelude.{◌≡◌, ◌≤◌, IfOk, MatchResult, length};

use crate::report::{put_bad_layout, put_changes};
use crate::request::LineCommand;
use command_replies::{Answer, Reply, too_large};
use iges_base::{Bytes, FILE_LIMIT, NoMemory, Out};
use line_layout::{LayoutFault, RelaidFault, relaid};
use std::alloc::Global;

const IN_LAYOUT: &[u8] = b"in layout\n";

fn bad_layout(alloc: Global, fault: LayoutFault) -> Result<Reply, NoMemory>
    ensures { IfOk result (λ reply. (reply.answer ≡ Answer.BadFile)
        × (reply.text ≡ bad_layout_line fault)) }
{
    let mut out = Out::new(alloc);
    put_bad_layout(&mut out, fault)?;
    Ok(Reply {
        answer: Answer::BadFile,
        text: out.into_bytes(),
    })
}

// The file in the layout of the fixed form, or the reply where none is made.
fn laid(alloc: Global, bytes: &[u8]) -> Result<Result<Bytes, Reply>, NoMemory>
    requires { length bytes.now ≤ FILE_LIMIT }
    ensures { IfOk result (λ r. MatchResult r (IsLaid bytes.now)
        (λ reply. OfNoLayout bytes.now reply.answer reply.text)) }
{
    match relaid(alloc, bytes) {
        Ok(text) => {
            if text.as_slice().len() as u64 > FILE_LIMIT {
                return Ok(Err(too_large()));
            }
            Ok(Ok(text))
        }
        Err(RelaidFault::Bad(fault)) => Ok(Err(bad_layout(alloc, fault)?)),
        Err(RelaidFault::NoMemory) => Err(NoMemory),
    }
}

fn in_layout(alloc: Global) -> Result<Reply, NoMemory>
    ensures { IfOk result (λ reply. (reply.answer ≡ Answer.Done)
        × (reply.text ≡ in_layout_line)) }
{
    Ok(Reply {
        answer: Answer::Done,
        text: Bytes::copy(alloc, IN_LAYOUT)?,
    })
}

fn not_in_layout(alloc: Global, bytes: &[u8]) -> Result<Reply, NoMemory>
    requires { length bytes.now ≤ FILE_LIMIT }
    ensures { IfOk result (λ reply. (reply.answer ≡ Answer.No)
        × (reply.text ≡ changes_text bytes.now)) }
{
    let mut out = Out::new(alloc);
    put_changes(&mut out, bytes)?;
    Ok(Reply {
        answer: Answer::No,
        text: out.into_bytes(),
    })
}

// The reply on the bytes of a file, of which this one is made.
fn layout_reply(alloc: Global, bytes: &[u8], text: &[u8]) -> Result<Reply, NoMemory>
    requires { length bytes.now ≤ FILE_LIMIT }
    ensures { IfOk result (λ reply. OfLayout bytes.now text.now LineCommand.Layout
        reply.answer reply.text) }
{
    if bytes == text {
        return in_layout(alloc);
    }
    not_in_layout(alloc, bytes)
}

fn laid_reply(
    alloc: Global,
    command: LineCommand,
    bytes: &[u8],
    text: Bytes,
) -> Result<Reply, NoMemory>
    requires { length bytes.now ≤ FILE_LIMIT }
    ensures { IfOk result (λ reply. OfLayout bytes.now text command reply.answer reply.text) }
{
    match command {
        LineCommand::Relayout => Ok(Reply {
            answer: Answer::Done,
            text,
        }),
        LineCommand::Layout => layout_reply(alloc, bytes, text.as_slice()),
    }
}

/// The reply to a command on the lines of bytes.
pub fn bytes_reply(alloc: Global, command: LineCommand, bytes: &[u8]) -> Result<Reply, NoMemory>
    requires { length bytes.now ≤ FILE_LIMIT }
    ensures { IfOk result (λ reply. OfLines command bytes.now reply.answer reply.text) }
{
    match laid(alloc, bytes)? {
        Ok(text) => laid_reply(alloc, command, bytes, text),
        Err(reply) => Ok(reply),
    }
}
