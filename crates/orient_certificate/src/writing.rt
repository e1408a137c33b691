//! The text of a line.

ghost use Rattle.std.specs.Prelude.{◌≡◌, ◌++◌, ◌∷◌, [], map, IfOk};
ghost use Rattle.cert_text.specs.Text.{spaced};
ghost use Rattle.orient_certificate.specs.Line.{HasSpelling, IsSpelled, flag_number, spelling};

use crate::line::OrientLine;
use iges_base::{Bytes, EntryNo, NoMemory, Out, put_number};
use std::alloc::Global;

fn put_numbers(out: &mut Out, numbers: &[u32]) -> Result<(), NoMemory>
    ensures { IfOk result (λ _. out.new ≡ out.old ++ spaced numbers.now) }
{
    'numbers: for i in 0..numbers.len() {
        put_number(out, u64::from(numbers[i]))?;
    }
    Ok(())
}

fn put_flags(out: &mut Out, flags: &[bool]) -> Result<(), NoMemory>
    ensures { IfOk result (λ _. out.new ≡ out.old ++ spaced (map flag_number flags.now)) }
{
    'flags: for i in 0..flags.len() {
        put_number(out, u64::from(flags[i]))?;
    }
    Ok(())
}

fn put_head_line(out: &mut Out, no: EntryNo) -> Result<(), NoMemory>
    ensures { IfOk result (λ _. out.new ≡ out.old ++ spelling (OrientLine.Head no)) }
{
    out.put(b"ORIENT")?;
    put_number(out, u64::from(no.0))?;
    out.put(b"\n")
}

fn put_flag_line(out: &mut Out, shell: u32, flags: &[bool]) -> Result<(), NoMemory>
    ensures { IfOk result (λ _. out.new ≡ out.old ++ spelling (OrientLine.Flags shell flags.now)) }
{
    out.put(b"F")?;
    put_number(out, u64::from(shell))?;
    put_flags(out, flags)?;
    out.put(b"\n")
}

fn put_ring_line(out: &mut Out, shell: u32, rows: &[u32]) -> Result<(), NoMemory>
    ensures { IfOk result (λ _. out.new ≡ out.old ++ spelling (OrientLine.Ring shell rows.now)) }
{
    out.put(b"O")?;
    put_number(out, u64::from(shell))?;
    put_numbers(out, rows)?;
    out.put(b"\n")
}

fn put_line(out: &mut Out, line: &OrientLine) -> Result<(), NoMemory>
    ensures { IfOk result (λ _. out.new ≡ out.old ++ spelling line.now) }
{
    match line {
        OrientLine::Head(no) => put_head_line(out, *no),
        OrientLine::Flags { shell, flags } => put_flag_line(out, *shell, flags.as_slice()),
        OrientLine::Ring { shell, rows } => put_ring_line(out, *shell, rows.as_slice()),
        OrientLine::End => out.put(b"END\n"),
    }
}

/// The text of a line, with its LF. Where every number has at most nine digits and no list is empty, the line is spelled
/// so.
pub fn write_orient_line(alloc: Global, line: &OrientLine) -> Result<Bytes, NoMemory>
    ensures text { IfOk result (λ text. text ≡ spelling line.now) }
    ensures spelled { HasSpelling line.now → IfOk result (λ text. IsSpelled text line.now) }
{
    let mut out = Out::new(alloc);
    put_line(&mut out, line)?;
    Ok(out.into_bytes())
}
