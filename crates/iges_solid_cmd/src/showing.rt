//! The reply to `show`: a line for each shell of a solid, with its counts.

ghost use Rattle.iges_solid_cmd.specs.Due.{OfShow};
ghost use Rattle.iges_solid_cmd.specs.Texts.{counted, counts_line, loop_count as loops_of, shell_lines_from, show_text};
ghost use Rattle.std.specs.Prelude.{◌≡◌, ◌+◌, ◌<◌, ◌^◌, ◌++◌, drop, length, IfOk, OnOk};

use brep_walk::{WalkFault, walk};
use command_replies::{Answer, Reply, failed};
use iges_base::{Bytes, EntryNo, NoMemory, Out, write_number};
use iges_params::File;
use shell_counts::{ShellCounts, shell_counts};
use solid_data::{FaceUse, Shell, ShellAt, Solid};
use std::alloc::Global;

/// A word and a number, each after a space.
pub fn put_count(out: &mut Out, word: &str, n: u64) -> Result<(), NoMemory>
    ensures { OnOk result (out.new ≡ out.old ++ counted word.now n) }
{
    out.put(b" ")?;
    out.put(word.as_bytes())?;
    out.put(b" ")?;
    write_number(out, n)
}

// How many loops the faces have.
fn loop_count(faces: &[FaceUse]) -> u64
    requires { loops_of faces.now < 2 ^ 64 }
    ensures { result ≡ loops_of faces.now }
{
    let mut count = 0;
    'faces: for face in faces {
        count += face.loops.len() as u64;
    }
    count
}

// The line of a shell, whose number counts from 1.
fn put_shell(out: &mut Out, k: u64, shell: &Shell, counts: &ShellCounts) -> Result<(), NoMemory>
    requires { loops_of shell.now.faces < 2 ^ 64 }
    ensures { OnOk result (out.new ≡ out.old
        ++ counts_line k shell.now counts.now.uses counts.now.edges counts.now.vertices) }
{
    out.put(b"shell ")?;
    write_number(out, k)?;
    put_count(out, "entity", u64::from(shell.entity.0))?;
    put_count(out, "flag", u64::from(shell.flag))?;
    put_count(out, "faces", shell.faces.len() as u64)?;
    put_count(out, "loops", loop_count(shell.faces.as_slice()))?;
    put_count(out, "uses", counts.uses as u64)?;
    put_count(out, "edges", counts.edges as u64)?;
    put_count(out, "vertices", counts.vertices as u64)?;
    out.put(b"\n")
}

// The line of the k-th shell, from 0.
fn put_shell_at(alloc: Global, out: &mut Out, solid: &Solid, k: u32) -> Result<(), NoMemory>
    requires { k < length solid.now.shells }
    ensures { OnOk result (out.new ++ shell_lines_from (k + 1) solid.now
        (drop (k + 1) solid.now.shells) ≡ out.old
        ++ shell_lines_from k solid.now (drop k solid.now.shells)) }
{
    let counts = shell_counts(alloc, solid, ShellAt(k))?;
    let shell = solid.shell(ShellAt(k)).unwrap();
    put_shell(out, u64::from(k) + 1, shell, &counts)
}

// The solid's number, and a line for each shell.
fn shell_list(alloc: Global, solid: &Solid) -> Result<Bytes, NoMemory>
    ensures { IfOk result (λ text. text ≡ show_text solid.now) }
{
    let mut out = Out::new(alloc);
    out.put(b"solid ")?;
    write_number(&mut out, u64::from(solid.entity().0))?;
    out.put(b"\n")?;
    'shells: for k in 0..solid.shell_count() as u32 {
        put_shell_at(alloc, &mut out, solid, k)?;
    }
    Ok(out.into_bytes())
}

/// What the shells of a solid are made of, or the first rule on its records that fails.
pub fn show_solid(alloc: Global, file: &File, no: u32) -> Result<Reply, NoMemory>
    ensures { IfOk result (λ reply. OfShow no file.now reply.answer reply.text) }
{
    let solid = match walk(alloc, file, EntryNo(no)) {
        Ok(solid) => solid,
        Err(WalkFault::Fails(failing)) => return failed(alloc, failing),
        Err(WalkFault::NoMemory) => return Err(NoMemory),
    };
    Ok(Reply {
        answer: Answer::Done,
        text: shell_list(alloc, &solid)?,
    })
}
