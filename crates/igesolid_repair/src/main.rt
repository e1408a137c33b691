//! `igesolid-repair`: an IGES file in the layout of the fixed form, what is changed to make it, and a solid with face flags that fit.
#![tactic(auto)]

use command_replies::{source_of, words_given};
use iges_io::std_sink;
use repair_commands::{file_named, run_repair};
use std::io;
use std::process::ExitCode;

fn main(rt: HostRuntime) -> ExitCode {
    let words = match words_given(&rt) {
        Ok(words) => words,
        Err(status) => return ExitCode::from(status),
    };
    let mut file = source_of(&rt, file_named(&words));
    let mut out = std_sink(io::writer(&rt));
    ExitCode::from(run_repair(rt.alloc(), &words, &mut file, &mut out).code())
}
