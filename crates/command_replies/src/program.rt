//! What a program is given by the system: its words, and the files that they name.

ghost use Rattle.command_replies.specs.Answer.{code_of};
ghost use Rattle.iges_io.specs.declared.system.Opened.TheVariants.{Absent};
ghost use Rattle.std.specs.Prelude.{◌≡◌, ◌≢◌, ◌↔◌, ◌⊎◌, [], IfErr, IfOk, IsSome};

use crate::answer::Answer;
use crate::words::Words;
use iges_io::{StdSource, no_source, open_source};
use std::alloc::Global;
use std::env;
use std::io::ErrorKind;
use std::rt::{Env, Files};

// The status where the system doesn't give the words.
const NO_WORDS: u8 = 9;

/// The file at the path, which may not be there; a source of no file where there is no path. It is for a program, which ends
/// once it has answered.
pub fn source_of<R: Files>(rt: &R, path: Option<&str>) -> StdSource<R::File>
    ensures count { result.faults ≡ 0 }
    ensures file { IsSome path.entry ↔ (result.file ≢ Absent) }
{
    match path {
        Some(path) => open_source(rt, path).before_exit(),
        None => no_source(),
    }
}

// The words in place of those that can't be had: where one isn't UTF-8, none, which have no listed form; else the status.
fn words_for(alloc: Global, kind: ErrorKind) -> Result<Words, u8>
    ensures none { IfOk result (λ words. (kind ≡ ErrorKind.InvalidData) × (words ≡ [])) }
    ensures status { IfErr result (λ status. ((kind ≡ ErrorKind.OutOfMemory)
        × (status ≡ code_of Answer.NoMemory)) ⊎ ((kind ≢ ErrorKind.InvalidData)
        × (kind ≢ ErrorKind.OutOfMemory) × (status ≡ 9))) }
{
    match kind {
        ErrorKind::InvalidData => Ok(Words::new(alloc)),
        ErrorKind::OutOfMemory => Err(Answer::NoMemory.code()),
        _ => Err(NO_WORDS),
    }
}

/// The words of the command line, without the program's name; else the status with which the program ends.
pub fn words_given<R: Env + Alloc<A = Global>>(rt: &R) -> Result<Words, u8> {
    match env::args(rt) {
        Ok(args) => match Words::behind_name(rt.alloc(), args) {
            Ok(words) => Ok(words),
            Err(_) => Err(Answer::NoMemory.code()),
        },
        Err(error) => words_for(rt.alloc(), error.kind()),
    }
}
