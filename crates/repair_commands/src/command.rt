//! The run of `igesolid-repair`, and the reply to each request.

ghost use Rattle.command_replies.specs.Outcome.{ReadsWhole};
ghost use Rattle.command_replies.specs.Replies.{CountAfterCall, IsReply, TakesWithin};
ghost use Rattle.iges_base.specs.declared.TheConstants.{FILE_LIMIT};
ghost use Rattle.iges_io.specs.Faults.{Rose};
ghost use Rattle.iges_io.specs.Reading.{TakesAtMost};
ghost use Rattle.std.specs.Prelude.{◌≡◌, ◌+◌, ◌<◌, ◌⊎◌, IfOk, IsErrOf, IsNone, IsSome};
ghost use Rattle.repair_commands.specs.Request.{request_of};
ghost use Rattle.repair_commands.specs.Due.{DueOf, OfLines};
ghost use Rattle.command_replies.specs.Ending.{IsComplete, Outcome};
ghost use Rattle.repair_commands.specs.Owed.{IsOwed};

use crate::reorienting::reorient_solid;
use crate::replies::bytes_reply;
use crate::request::{LineCommand, Request, USAGE, request_of};
use command_replies::{Answer, Reply, Stop, Words, bytes_in, file_in, finish, usage_reply};
use iges_base::FILE_LIMIT;
use iges_io::{PIECE, Sink, Source};
use mend_commands::{Choice, mend_solid};
use mended_commands::mended_solid;
use std::alloc::Global;

// The reply to a command on the lines of a source.
fn lines_reply<F: Source>(alloc: Global, command: LineCommand, file: &mut F) -> Result<Reply, Stop>
    requires { F.can_read file.old }
    ensures found { IfOk result (IsReply (OfLines command) (F.left file.old)) }
    ensures whole { IfOk result (λ reply. ReadsWhole (F.left file.new) reply.answer) }
    ensures count { CountAfterCall (F.faults file.old) (F.faults file.new) result }
    ensures taken { TakesWithin FILE_LIMIT (F.left file.old) (F.left file.new) result }
{
    match bytes_in(alloc, file, FILE_LIMIT)? {
        Ok(bytes) => Ok(bytes_reply(alloc, command, bytes.as_slice())?),
        Err(reply) => Ok(reply),
    }
}

// The reply where the solid of this number is to be reoriented.
fn solid_reply<F: Source>(alloc: Global, no: u32, file: &mut F) -> Result<Reply, Stop>
    requires { F.can_read file.old }
    ensures found { IfOk result (IsReply (DueOf (Request.Reorient no)) (F.left file.old)) }
    ensures whole { IfOk result (λ reply. ReadsWhole (F.left file.new) reply.answer) }
    ensures count { CountAfterCall (F.faults file.old) (F.faults file.new) result }
    ensures taken { TakesWithin FILE_LIMIT (F.left file.old) (F.left file.new) result }
{
    match file_in(alloc, file)? {
        Ok(file) => Ok(reorient_solid(alloc, file, no)?),
        Err(reply) => Ok(reply),
    }
}

// The reply where the solid of this number is to be mended.
fn mend_reply<F: Source>(
    alloc: Global,
    no: u32,
    choice: Choice,
    file: &mut F,
) -> Result<Reply, Stop>
    requires { F.can_read file.old }
    ensures found { IfOk result (IsReply (DueOf (Request.Mend no choice)) (F.left file.old)) }
    ensures whole { IfOk result (λ reply. ReadsWhole (F.left file.new) reply.answer) }
    ensures count { CountAfterCall (F.faults file.old) (F.faults file.new) result }
    ensures taken { TakesWithin FILE_LIMIT (F.left file.old) (F.left file.new) result }
{
    match file_in(alloc, file)? {
        Ok(file) => Ok(mend_solid(alloc, file, no, choice)?),
        Err(reply) => Ok(reply),
    }
}

// The reply where it is to be told how the solid of this number is mended.
fn mended_reply<F: Source>(
    alloc: Global,
    no: u32,
    choice: Choice,
    file: &mut F,
) -> Result<Reply, Stop>
    requires { F.can_read file.old }
    ensures found { IfOk result (IsReply (DueOf (Request.Mended no choice)) (F.left file.old)) }
    ensures whole { IfOk result (λ reply. ReadsWhole (F.left file.new) reply.answer) }
    ensures count { CountAfterCall (F.faults file.old) (F.faults file.new) result }
    ensures taken { TakesWithin FILE_LIMIT (F.left file.old) (F.left file.new) result }
{
    match file_in(alloc, file)? {
        Ok(file) => Ok(mended_solid(alloc, file, no, choice)?),
        Err(reply) => Ok(reply),
    }
}

// The reply to what is asked of a source.
fn source_reply<F: Source>(alloc: Global, request: Request, file: &mut F) -> Result<Reply, Stop>
    requires { F.can_read file.old }
    ensures found { IfOk result (IsReply (DueOf request) (F.left file.old)) }
    ensures whole { IfOk result (λ reply. ReadsWhole (F.left file.new) reply.answer) }
    ensures count { CountAfterCall (F.faults file.old) (F.faults file.new) result }
    ensures taken { TakesWithin FILE_LIMIT (F.left file.old) (F.left file.new) result }
{
    match request {
        Request::Lines(command) => lines_reply(alloc, command, file),
        Request::Reorient(no) => solid_reply(alloc, no, file),
        Request::Mend(no, choice) => mend_reply(alloc, no, choice, file),
        Request::Mended(no, choice) => mended_reply(alloc, no, choice, file),
    }
}

fn reply_to<F: Source>(alloc: Global, words: &Words, file: &mut F) -> Result<Reply, Stop>
    requires { F.can_read file.old }
    ensures found { IfOk result (λ reply. IsOwed words.now
        (F.left file.old) reply.answer reply.text) }
    ensures whole { IsSome (request_of words.now)
        → IfOk result (λ reply. ReadsWhole (F.left file.new) reply.answer) }
    ensures count { CountAfterCall (F.faults file.old) (F.faults file.new) result }
    ensures taken { TakesWithin FILE_LIMIT (F.left file.old) (F.left file.new) result }
    ensures reads { IsErrOf result Stop.ReadFault → IsSome (request_of words.now) }
    ensures unread { IsNone (request_of words.now) → file.new ≡ file.old }
{
    match request_of(words) {
        Some(request) => source_reply(alloc, request, file),
        None => Ok(usage_reply(alloc, USAGE)?),
    }
}

/// Runs what these words ask for: reads the file, forms the whole text that is due, and then writes it.
///
/// The answer says how the run ended; its `code` is the program's status.
pub fn run_repair<F: Source, O: Sink>(
    alloc: Global,
    words: &Words,
    file: &mut F,
    out: &mut O,
) -> Answer
    // The source is read until a read gives none or fails, and the sink is written until a write fails, and no more.
    requires file { F.can_read file.old }
    requires out { O.can_write out.old }

    // It answers what is owed and has written exactly the text that is owed, or a fault or out of memory cut it short.
    ensures outcome { Outcome (IsOwed words.now (F.left file.old)) (O.written out.old)
        (O.written out.new) result }

    // A fault is answered only where the count of a source that the words read, or of the sink, rose.
    ensures read_fault { result ≡ Answer.ReadFault
        → IsSome (request_of words.now) × Rose (F.faults file.old) (F.faults file.new) }
    ensures write_fault { result ≡ Answer.WriteFault → Rose (O.faults out.old) (O.faults out.new) }

    // Where a read failed, that or out of memory is answered, and where a write failed, that.
    ensures failed_read { F.faults file.old < F.faults file.new
        → (result ≡ Answer.ReadFault) ⊎ (result ≡ Answer.NoMemory) }
    ensures failed_write { O.faults out.old < O.faults out.new → result ≡ Answer.WriteFault }

    // Of a source it takes at most one piece more than the limit; a read that failed came before more than the limit.
    ensures taken { TakesAtMost (FILE_LIMIT + PIECE) (F.left file.old) (F.left file.new) }
    ensures early { result ≡ Answer.ReadFault
        → TakesAtMost FILE_LIMIT (F.left file.old) (F.left file.new) }

    // A file that is judged was read to its end. Words that ask for nothing leave it.
    ensures whole { IsSome (request_of words.now) → ReadsWhole (F.left file.new) result }
    ensures unread { IsNone (request_of words.now) → file.new ≡ file.old }

    // Where nothing failed, words of a listed form have their defined answer.
    ensures complete { IsSome (request_of words.now)
        → (¬ Rose (F.faults file.old) (F.faults file.new))
        → (¬ Rose (O.faults out.old) (O.faults out.new)) → IsComplete result }
{
    match reply_to(alloc, words, file) {
        Ok(reply) => finish(out, reply),
        Err(Stop::ReadFault) => Answer::ReadFault,
        Err(Stop::OutOfMemory) => Answer::NoMemory,
    }
}
