//! `igesolid-where`: where the solids of an IGES file fail.
#![tactic(auto)]

use command_replies::{source_of, words_given};
use iges_io::std_sink;
use std::io;
use std::process::ExitCode;
use where_command::{file_named, run_where};

fn main(rt: HostRuntime) -> ExitCode {
    let words = match words_given(&rt) {
        Ok(words) => words,
        Err(status) => return ExitCode::from(status),
    };
    let mut file = source_of(&rt, file_named(&words));
    let mut out = std_sink(io::writer(&rt));
    ExitCode::from(run_where(rt.alloc(), &words, &mut file, &mut out).code())
}
