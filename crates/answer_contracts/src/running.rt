//! Answers of whole runs.

ghost use Rattle.command_replies.specs.Ending.{Finishes, IsComplete, Outcome};
ghost use Rattle.iges_io.specs.Faults.{Rose};
ghost use Rattle.iges_solid_cmd.specs.Forms.{command_of, reads_certificate, reads_file};
ghost use Rattle.iges_solid_cmd.specs.Owed.{IsOwed};
ghost use Rattle.std.specs.Prelude.{◌≡◌, ◌⊎◌, IsSome, IsTrue};

use command_replies::{Answer, Reply, Words, finish};
use iges_io::{Sink, Source, StdSource, open_source};
use iges_solid_cmd::run;
use std::alloc::Global;
use std::rt::Files;

/// The answer of `igesolid` to these words.
pub fn answer_of<F: Source, C: Source, O: Sink>(
    alloc: Global,
    words: &Words,
    file: &mut F,
    cert: &mut C,
    out: &mut O,
) -> Answer
    requires file { F.can_read file.old }
    requires cert { C.can_read cert.old }
    requires out { O.can_write out.old }
    ensures outcome { Outcome (IsOwed words.now (F.left file.old) (C.left cert.old))
        (O.written out.old) (O.written out.new) result }
    ensures read_fault { result ≡ Answer.ReadFault
        → (IsTrue (reads_file words.now) × Rose (F.faults file.old) (F.faults file.new))
        ⊎ (IsTrue (reads_certificate words.now) × Rose (C.faults cert.old) (C.faults cert.new)) }
    ensures write_fault { result ≡ Answer.WriteFault → Rose (O.faults out.old) (O.faults out.new) }
    ensures complete { IsSome (command_of words.now) → (¬ Rose (F.faults file.old) (F.faults file.new)) → (¬ Rose (C.faults cert.old) (C.faults cert.new))
        → (¬ Rose (O.faults out.old) (O.faults out.new)) → IsComplete result }
{
    match run(alloc, words, file, cert, out) {
        Answer::Done => Answer::Done,
        Answer::No => Answer::No,
        Answer::BadFile => Answer::BadFile,
        Answer::NoExtract => Answer::NoExtract,
        Answer::NoMemory => Answer::NoMemory,
        answer => answer,
    }
}

/// Writes a reply, and gives its answer.
pub fn ended<O: Sink>(out: &mut O, reply: Reply) -> Answer
    requires { O.can_write out.old }
    ensures { Finishes (O.written out.old) (O.written out.new) (O.faults out.old)
        (O.faults out.new) reply.answer reply.text result }
{
    match finish(out, reply) {
        Answer::WriteFault => Answer::WriteFault,
        answer => answer,
    }
}

/// The file at a path, of which no read has failed.
pub fn opened<R: Files>(rt: &R, path: &str) -> StdSource<R::File>
    ensures { result.faults ≡ 0 }
{
    open_source(rt, path)
}
