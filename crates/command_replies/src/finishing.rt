//! The end of a run: its reply is written.

ghost use Rattle.command_replies.specs.Ending.{Finishes};

use crate::answer::Answer;
use crate::reply::Reply;
use iges_io::{Sink, write_all};

/// Writes a reply, and gives its answer. Where a write fails, that is answered, and the sink may have taken a part of the text.
pub fn finish<O: Sink>(out: &mut O, reply: Reply) -> Answer
    requires { O.can_write out.old }
    ensures { Finishes (O.written out.old) (O.written out.new) (O.faults out.old)
        (O.faults out.new) reply.answer reply.text result }
{
    match write_all(out, reply.text.as_slice()) {
        Ok(()) => reply.answer,
        Err(_) => Answer::WriteFault,
    }
}
