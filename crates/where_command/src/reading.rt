//! The file of a source.

ghost use Rattle.iges_base.specs.declared.TheConstants.{FILE_LIMIT};
ghost use Rattle.iges_io.specs.Reading.{TakesAtMost};
ghost use Rattle.command_replies.specs.Outcome.{ReadsWhole};
ghost use Rattle.command_replies.specs.Replies.{CountAfterCall, IsReply, TakesWithin};
ghost use Rattle.std.specs.Io.KnownBytes.{IsAtEnd};
ghost use Rattle.std.specs.Prelude.{◌≡◌, ◌≤◌, IfOk, MatchResult, OnOk, length};
ghost use Rattle.where_command.specs.Due.{OfNoFile, bad_file_text};
ghost use Rattle.where_command.specs.Owed.{IsPlacedTold};
ghost use Rattle.where_places.specs.PlacedFiles.{IsPlacedFile};
ghost use Rattle.where_places.specs.Places.{HasPlaces};

use command_replies::{Answer, Reply, Stop, bad_file, bytes_in};
use iges_base::{Bytes, FILE_LIMIT, NoMemory, Out};
use iges_io::Source;
use iges_lines::LineFault;
use iges_params::{File, ReadFileFault};
use std::alloc::Global;
use where_file::put_bad_file;
use where_places::{PlacedFile, Places, read_placed_file};
use where_text::put_reason_sentence;

fn bad_file_reply(alloc: Global, bytes: &[u8], fault: LineFault) -> Result<Reply, NoMemory>
    ensures { IfOk result (λ reply. (reply.answer ≡ Answer.BadFile)
        × (reply.text ≡ bad_file_text bytes.now fault)) }
{
    let line = bad_file(alloc, fault)?;
    let mut out = Out::new(alloc);
    out.put(line.text.as_slice())?;
    put_reason_sentence(&mut out, fault.reason)?;
    put_bad_file(&mut out, bytes, fault)?;
    Ok(Reply {
        answer: Answer::BadFile,
        text: out.into_bytes(),
    })
}

// What the bytes contain and where its entries stand, or the reply where they are no file.
fn contents_of(alloc: Global, bytes: &[u8]) -> Result<Result<(File, Places), Reply>, NoMemory>
    requires { length bytes.now ≤ FILE_LIMIT }
    ensures found { IfOk result (λ r. MatchResult r (λ p. HasPlaces bytes.now p.0 p.1)
        (λ reply. OfNoFile bytes.now reply.answer reply.text)) }
    ensures bad { IfOk result (λ r. MatchResult r (λ _. Unit {0})
        (λ reply. reply.answer ≡ Answer.BadFile)) }
{
    match read_placed_file(alloc, bytes) {
        Ok(parts) => Ok(Ok(parts)),
        Err(ReadFileFault::Bad(fault)) => Ok(Err(bad_file_reply(alloc, bytes, fault)?)),
        Err(ReadFileFault::NoMemory) => Err(NoMemory),
    }
}

fn file_of(alloc: Global, bytes: Bytes) -> Result<Result<PlacedFile, Reply>, NoMemory>
    requires { length bytes ≤ FILE_LIMIT }
    ensures found { IfOk result (λ r. MatchResult r (IsPlacedFile bytes)
        (λ reply. OfNoFile bytes reply.answer reply.text)) }
    ensures bad { IfOk result (λ r. MatchResult r (λ _. Unit {0})
        (λ reply. reply.answer ≡ Answer.BadFile)) }
{
    match contents_of(alloc, bytes.as_slice())? {
        Ok((file, places)) => Ok(Ok(PlacedFile {
            bytes,
            file,
            places,
        })),
        Err(reply) => Ok(Err(reply)),
    }
}

/// The file of a source, or the reply where its bytes are too many or no file. It errs where a read fails or memory runs
/// out.
pub fn file_in<F: Source>(alloc: Global, source: &mut F) -> Result<Result<PlacedFile, Reply>, Stop>
    requires { F.can_read source.old }
    ensures found { IfOk result (λ r. MatchResult r (IsPlacedTold (F.left source.old))
        (IsReply OfNoFile (F.left source.old))) }
    ensures whole { IfOk result (λ r. MatchResult r (λ _. IsAtEnd (F.left source.new))
        (λ reply. ReadsWhole (F.left source.new) reply.answer)) }
    ensures count { CountAfterCall (F.faults source.old) (F.faults source.new) result }
    ensures taken { TakesWithin FILE_LIMIT (F.left source.old) (F.left source.new) result }
    ensures within { IfOk result (λ r. OnOk r
        (TakesAtMost FILE_LIMIT (F.left source.old) (F.left source.new))) }
{
    match bytes_in(alloc, source, FILE_LIMIT)? {
        Ok(bytes) => Ok(file_of(alloc, bytes)?),
        Err(reply) => Ok(Err(reply)),
    }
}
