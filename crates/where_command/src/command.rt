//! The run of `igesolid-where`, from its words to the text that it writes.

ghost use Rattle.command_replies.specs.Outcome.{ReadsWhole};
ghost use Rattle.command_replies.specs.Replies.{CountAfterCall, IsReply, TakesWithin};
ghost use Rattle.iges_base.specs.declared.TheConstants.{FILE_LIMIT};
ghost use Rattle.iges_io.specs.Faults.{Rose};
ghost use Rattle.iges_io.specs.Reading.{TakesAtMost};
ghost use Rattle.std.specs.Prelude.{◌≡◌, ◌+◌, ◌<◌, ◌⊎◌, IfOk, IsErrOf, IsNone, IsSome};
ghost use Rattle.where_command.specs.Asked.{asked_of};
ghost use Rattle.where_command.specs.Due.{DueFor};
ghost use Rattle.command_replies.specs.Ending.{IsComplete, Outcome};
ghost use Rattle.where_command.specs.Owed.{IsOwed};

use crate::asked::{Asked, USAGE, asked_of};
use crate::reading::file_in;
use crate::replies::contents_reply;
use command_replies::{Answer, Reply, Stop, Words, finish, usage_reply};
use iges_io::{PIECE, Sink, Source};
use std::alloc::Global;

// The reply to what is asked of the file of a source.
fn source_reply<F: Source>(alloc: Global, asked: Asked, file: &mut F) -> Result<Reply, Stop>
    requires { F.can_read file.old }
    ensures found { IfOk result (IsReply (DueFor asked) (F.left file.old)) }
    ensures whole { IfOk result (λ reply. ReadsWhole (F.left file.new) reply.answer) }
    ensures count { CountAfterCall (F.faults file.old) (F.faults file.new) result }
    ensures taken { TakesWithin FILE_LIMIT (F.left file.old) (F.left file.new) result }
{
    match file_in(alloc, file)? {
        Ok(placed) => Ok(contents_reply(alloc, asked, &placed)?),
        Err(reply) => Ok(reply),
    }
}

fn reply_to<F: Source>(alloc: Global, words: &Words, file: &mut F) -> Result<Reply, Stop>
    requires { F.can_read file.old }
    ensures found { IfOk result (λ reply. IsOwed words.now
        (F.left file.old) reply.answer reply.text) }
    ensures whole { IsSome (asked_of words.now)
        → IfOk result (λ reply. ReadsWhole (F.left file.new) reply.answer) }
    ensures count { CountAfterCall (F.faults file.old) (F.faults file.new) result }
    ensures taken { TakesWithin FILE_LIMIT (F.left file.old) (F.left file.new) result }
    ensures reads { IsErrOf result Stop.ReadFault → IsSome (asked_of words.now) }
    ensures unread { IsNone (asked_of words.now) → file.new ≡ file.old }
{
    match asked_of(words) {
        Some(asked) => source_reply(alloc, asked, file),
        None => Ok(usage_reply(alloc, USAGE)?),
    }
}

/// Runs what these words ask for: reads the file, forms the whole text that is due, and then writes it.
///
/// The answer says how the run ended; its `code` is the program's status.
pub fn run_where<F: Source, O: Sink>(
    alloc: Global,
    words: &Words,
    file: &mut F,
    out: &mut O,
) -> Answer
    // The source is read until a read gives none or fails, and the sink is written until a write fails, and no more.
    requires file { F.can_read file.old }
    requires out { O.can_write out.old }

    // It answers what is owed and has written exactly the text that is owed, or a fault or out of memory cut it short.
    ensures outcome { Outcome (IsOwed words.now (F.left file.old)) (O.written out.old)
        (O.written out.new) result }

    // A fault is answered only where the count of a source that the words read, or of the sink, rose.
    ensures read_fault { result ≡ Answer.ReadFault
        → IsSome (asked_of words.now) × Rose (F.faults file.old) (F.faults file.new) }
    ensures write_fault { result ≡ Answer.WriteFault → Rose (O.faults out.old) (O.faults out.new) }

    // Where a read failed, that or out of memory is answered, and where a write failed, that.
    ensures failed_read { F.faults file.old < F.faults file.new
        → (result ≡ Answer.ReadFault) ⊎ (result ≡ Answer.NoMemory) }
    ensures failed_write { O.faults out.old < O.faults out.new → result ≡ Answer.WriteFault }

    // Of a source it takes at most one piece more than the limit; a read that failed came before more than the limit.
    ensures taken { TakesAtMost (FILE_LIMIT + PIECE) (F.left file.old) (F.left file.new) }
    ensures early { result ≡ Answer.ReadFault
        → TakesAtMost FILE_LIMIT (F.left file.old) (F.left file.new) }

    // A file that is judged was read to its end. Words that ask for nothing leave it.
    ensures whole { IsSome (asked_of words.now) → ReadsWhole (F.left file.new) result }
    ensures unread { IsNone (asked_of words.now) → file.new ≡ file.old }

    // Where nothing failed, words of a listed form have their defined answer.
    ensures complete { IsSome (asked_of words.now)
        → (¬ Rose (F.faults file.old) (F.faults file.new))
        → (¬ Rose (O.faults out.old) (O.faults out.new)) → IsComplete result }
{
    match reply_to(alloc, words, file) {
        Ok(reply) => finish(out, reply),
        Err(Stop::ReadFault) => Answer::ReadFault,
        Err(Stop::OutOfMemory) => Answer::NoMemory,
    }
}
