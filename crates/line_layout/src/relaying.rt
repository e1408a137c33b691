//! Making the file in the layout, piece by piece.

ghost use Rattle.iges_base.specs.declared.TheConstants.{FILE_LIMIT};
ghost use Rattle.line_layout.specs.Counts.{AreFew};
ghost use Rattle.line_layout.specs.Relaid.{Gives, Laid, at_end, before, relaid, step, unless_shuffled};
ghost use Rattle.line_layout.specs.Judging.{judge, lines_after};
ghost use Rattle.line_layout.specs.Marks.{unmarked};
ghost use Rattle.line_layout.specs.Strays.{shuffled_line};
ghost use Rattle.line_layout.specs.Taking.{GoesOn, KeepsFew, Takes};
ghost use Rattle.line_layout.specs.declared.counting.LineCounts.{LineCounts};
ghost use Rattle.std.specs.Prelude.{◌≡◌, ◌≤◌, ◌<◌, ◌^◌, IfOk, Ok, length};

use crate::counting::{LineCounts, counted, no_lines};
use crate::fault::{LayoutFault, LayoutReason, RelaidFault};
use crate::judging::{Judged, judge};
use crate::letters::{Section, is_last};
use crate::marks::unmarked;
use crate::piece::{end_byte, first_piece};
use crate::row::put_row;
use crate::strays::{Stray, note_stray, shuffled_line};
use iges_base::{Bytes, Out};
use std::alloc::Global;

/// What comes after a piece.
#[derive(Clone, Copy)]
pub enum Next {
    /// The pieces after it, with these lines before them.
    More(LineCounts),
    /// Nothing: the terminate line has come.
    Nothing,
}

// Appends what a piece gives.
fn take_piece(
    out: &mut Out,
    counts: LineCounts,
    judged: Judged,
    number: u64,
    piece: &[u8],
) -> Result<Next, RelaidFault>
    requires few { AreFew counts }
    requires judged { judged ≡ judge counts piece.now }
    ensures takes { (go : LineCounts → Laid)
        → Takes result out.old out.new (step number counts (unmarked piece.now) (judge counts piece.now) go) go }
    ensures few { KeepsFew result }
    ensures after { GoesOn result (lines_after counts judged) }
{
    let section = match judged {
        Judged::Blank => return Ok(Next::More(counts)),
        Judged::Bad(reason) => {
            return Err(RelaidFault::Bad(LayoutFault {
                line: number,
                reason,
            }));
        }
        Judged::Good(section) => section,
    };
    put_row(out, counts, section, unmarked(piece))?;
    if is_last(section) {
        return Ok(Next::Nothing);
    }
    Ok(Next::More(counted(counts, section)))
}

// What is written where the pieces end and no terminate line came.
#[tactic(auto, unfolding(crate::specs::Relaid::at_end))]
fn end(out: Out, counts: LineCounts, number: u64) -> Result<Bytes, RelaidFault>
    requires { AreFew counts }
    ensures { Gives result (before out (at_end number counts)) }
{
    if counts.param == 0 {
        return Err(RelaidFault::Bad(LayoutFault {
            line: number,
            reason: LayoutReason::Missing,
        }));
    }
    let mut out = out;
    put_row(&mut out, counts, Section::Terminate, &[])?;
    Ok(out.into_bytes())
}

// The file, unless the numbers of a section are in another order.
fn unless_shuffled(alloc: Global, text: Bytes, strays: &[Stray]) -> Result<Bytes, RelaidFault>
    ensures { Gives result (unless_shuffled (shuffled_line strays.now) (Ok text)) }
{
    match shuffled_line(alloc, strays)? {
        Some(line) => Err(RelaidFault::Bad(LayoutFault {
            line,
            reason: LayoutReason::Shuffled,
        })),
        None => Ok(text),
    }
}

/// The file in the layout of the fixed form: lines of 80 columns that end in LF, each with the letter of its section in
/// column 73 and its number in columns 74 to 80, and a terminate line with the counts (IGES 5.3, 2.2.4). The columns 1 to
/// 72 of the other lines are those of the file. Where a line's content can't be told apart for certain, the first such
/// line, and why; and where each line by itself can, but the numbers of a section are its places in another order, the first
/// line there whose number isn't its place.
pub fn relaid(alloc: Global, bytes: &[u8]) -> Result<Bytes, RelaidFault>
    requires { length bytes.now ≤ FILE_LIMIT }
    ensures { Gives result (relaid bytes.now) }
{
    let ending = end_byte(bytes);
    let mut out = Out::new(alloc);
    let mut strays = Vec::new(alloc);
    let mut counts = no_lines();
    let mut number = 1;
    let mut left = bytes;
    'pieces: while !left.is_empty() {
        let (piece, after) = first_piece(left, ending);
        let judged = judge(counts, piece);
        note_stray(&mut strays, counts, judged, number, unmarked(piece))?;
        match take_piece(&mut out, counts, judged, number, piece)? {
            Next::More(more) => counts = more,
            Next::Nothing => return unless_shuffled(alloc, out.into_bytes(), strays.as_slice()),
        }
        number += 1;
        left = after;
    }
    let text = end(out, counts, number)?;
    unless_shuffled(alloc, text, strays.as_slice())
}
