//! The bytes or the file that a source gives, or the reply in their place.

ghost use Rattle.iges_base.specs.declared.TheConstants.{FILE_LIMIT};
ghost use Rattle.iges_io.specs.Reading.{TakesAtMost};
ghost use Rattle.iges_lines.specs.Feeding.{IsFed};
ghost use Rattle.iges_lines.specs.Gives.{IfBad};
ghost use Rattle.iges_params.specs.Refusal.{Refusal};
ghost use Rattle.iges_params.specs.IsFile.{IsFile};
ghost use Rattle.command_replies.specs.Due.{OfNoFile};
ghost use Rattle.command_replies.specs.Outcome.{ReadsWhole};
ghost use Rattle.command_replies.specs.Replies.{AreWithin, CountAfterCall, IsFedTold, IsFileTold, IsReply, IsTooLarge, TakesWithin};
ghost use Rattle.std.specs.Io.KnownBytes.{IsAtEnd};
ghost use Rattle.std.specs.Prelude.{◌≡◌, ◌<◌, ◌≤◌, List, ℕ, length, IfOk, MatchResult, OnOk, vec_len};

use crate::answer::Answer;
use crate::reply::{Reply, Stop, bad_file, too_large};
use iges_base::{Bytes, FILE_LIMIT, Memory, NoMemory};
use iges_io::{NextPiece, PIECE, ReadAll, Source, next_piece, piece_room, read_all};
use iges_lines::LineFeed;
use iges_params::{File, ReadFileFault, take_sections};
use std::alloc::Global;

/// A buffer for what one read gives. It errs only where memory runs out.
pub fn buffer(alloc: Global) -> Result<Vec<u8>, NoMemory>
    ensures { IfOk result (λ room. vec_len room ≡ PIECE) }
{
    Ok(piece_room(alloc)?)
}

/// All bytes of a source, or the reply where they are more than the limit. It errs where a read fails or memory runs
/// out.
pub fn bytes_in<S: Source>(
    alloc: Global,
    source: &mut S,
    limit: u64,
) -> Result<Result<Bytes, Reply>, Stop>
    requires { S.can_read source.old }
    ensures found { IfOk result (λ r. MatchResult r (AreWithin limit (S.left source.old))
        (IsReply (IsTooLarge limit) (S.left source.old))) }
    ensures whole { IfOk result (λ r. MatchResult r (λ _. IsAtEnd (S.left source.new))
        (λ reply. reply.answer ≡ Answer.TooLarge)) }
    ensures count { CountAfterCall (S.faults source.old) (S.faults source.new) result }
    ensures taken { TakesWithin limit (S.left source.old) (S.left source.new) result }
    ensures within { IfOk result (λ r. OnOk r
        (TakesAtMost limit (S.left source.old) (S.left source.new))) }
{
    match read_all(alloc, source, limit) {
        Ok(bytes) => Ok(Ok(bytes)),
        Err(ReadAll::TooLarge) => Ok(Err(too_large())),
        Err(ReadAll::ReadFault) => Err(Stop::ReadFault),
        Err(ReadAll::NoMemory) => Err(Stop::OutOfMemory),
    }
}

// The lines of a source, which are judged while they come, or the reply where its bytes are too many.
fn lines_in<S: Source>(alloc: Global, source: &mut S) -> Result<Result<LineFeed, Reply>, Stop>
    requires { S.can_read source.old }
    ensures found { IfOk result (λ r. MatchResult r (IsFedTold (S.left source.old))
        (IsReply (IsTooLarge FILE_LIMIT) (S.left source.old))) }
    ensures whole { IfOk result (λ r. MatchResult r (λ _. IsAtEnd (S.left source.new))
        (λ reply. reply.answer ≡ Answer.TooLarge)) }
    ensures count { CountAfterCall (S.faults source.old) (S.faults source.new) result }
    ensures taken { TakesWithin FILE_LIMIT (S.left source.old) (S.left source.new) result }
    ensures within { IfOk result (λ r. OnOk r
        (TakesAtMost FILE_LIMIT (S.left source.old) (S.left source.new))) }
{
    let mut feed = LineFeed::new(alloc);
    let mut room = buffer(alloc)?;
    let piece = room.as_mut_slice();
    let mut came = 0;
    'reads: loop {
        let Ok(next) = next_piece(source, piece, came, FILE_LIMIT) else {
            return Err(Stop::ReadFault);
        };
        let count = match next {
            NextPiece::Bytes(count) => count,
            NextPiece::End => return Ok(Ok(feed)),
            NextPiece::TooLarge => return Ok(Err(too_large())),
        };
        feed.feed(&piece[..count])?;
        came += count as u64;
    }
}

// The file of the lines that came.
fn read_fed(alloc: Global, feed: LineFeed) -> Result<File, ReadFileFault>
    ensures found { (bytes : List ℕ) → IsFed feed bytes → IfOk result (IsFile bytes) }
    ensures fault { (bytes : List ℕ) → IsFed feed bytes → IfBad result (Refusal bytes) }
{
    match feed.finish() {
        Ok(lines) => take_sections(alloc, lines),
        Err(fault) => Err(fault),
    }
}

// What becomes of a file's memory, by whether the process ends soon.
fn memory_of(ends_process: bool) -> Memory {
    if ends_process {
        Memory::Left
    } else {
        Memory::GivenBack
    }
}

// The file of the lines that came, or the reply where they are those of none.
fn file_of(alloc: Global, feed: LineFeed) -> Result<Result<File, Reply>, NoMemory>
    ensures found { (bytes : List ℕ) → IsFed feed bytes → length bytes ≤ FILE_LIMIT
        → IfOk result (λ r. MatchResult r (IsFile bytes)
        (λ reply. OfNoFile bytes reply.answer reply.text)) }
    ensures bad { IfOk result (λ r. MatchResult r (λ _. Unit {0})
        (λ reply. reply.answer ≡ Answer.BadFile)) }
{
    match read_fed(alloc, feed) {
        Ok(file) => Ok(Ok(file)),
        Err(ReadFileFault::Bad(fault)) => Ok(Err(bad_file(alloc, fault)?)),
        Err(ReadFileFault::NoMemory) => Err(NoMemory),
    }
}

// The same, where this becomes of the file's memory.
fn with_memory(found: Result<File, Reply>, memory: Memory) -> Result<File, Reply>
    ensures { result ≡ found }
{
    match found {
        Ok(mut file) => {
            file.set_memory(memory);
            Ok(file)
        }
        Err(reply) => Err(reply),
    }
}

/// Reads a file from a source, line by line as the bytes arrive. Bytes that are too many, or no file, get the reply that
/// says so. Errs where a read fails or memory runs out. Where the source says that the process ends soon, the file's memory is
/// left to the system.
pub fn file_in<F: Source>(alloc: Global, source: &mut F) -> Result<Result<File, Reply>, Stop>
    requires { F.can_read source.old }
    ensures found { IfOk result (λ r. MatchResult r (IsFileTold (F.left source.old))
        (IsReply OfNoFile (F.left source.old))) }
    ensures whole { IfOk result (λ r. MatchResult r (λ _. IsAtEnd (F.left source.new))
        (λ reply. ReadsWhole (F.left source.new) reply.answer)) }
    ensures count { CountAfterCall (F.faults source.old) (F.faults source.new) result }
    ensures taken { TakesWithin FILE_LIMIT (F.left source.old) (F.left source.new) result }
    ensures within { IfOk result (λ r. OnOk r
        (TakesAtMost FILE_LIMIT (F.left source.old) (F.left source.new))) }
{
    let memory = memory_of(source.ends_process());
    match lines_in(alloc, source)? {
        Ok(feed) => Ok(with_memory(file_of(alloc, feed)?, memory)),
        Err(reply) => Ok(Err(reply)),
    }
}
