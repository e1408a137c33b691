//! The text of an orientation.

ghost use Rattle.std.specs.Prelude.{◌≡◌, ◌+◌, ◌++◌, ◌<◌, ℕ, suc, length, map, IfOk, IfErr, OnOk};
ghost use Rattle.std.specs.Bool.{MatchBool};
ghost use Rattle.std.specs.List.{AllByRecursion};
ghost use Rattle.command_replies.specs.declared.answer.Answer.TheVariants as answer;
ghost use Rattle.orient_certificate.specs.Line.{HasSpelling, spelling};
ghost use Rattle.orient_certificate.specs.OddRing.{row_numbers};
ghost use Rattle.orient_certificate.specs.Outcome.{IsFault, IsFirstFailing};
ghost use Rattle.orient_commands.specs.Due.{IsOriented, IsRingLine};
ghost use Rattle.orient_commands.specs.Reading.{IsBegun};
ghost use Rattle.orient_commands.specs.Shells.{IsReady, OfAllShells, IsFirstUnready};
ghost use Rattle.orient_commands.specs.Text.{FitsAs};
ghost use Rattle.solid_data.specs.SolidData.{SolidData};
ghost use Rattle.solid_data.specs.declared.TheConstants.{PART_LIMIT};

use command_replies::{Answer, Reply};
use face_orient::{NumberList, OrientFault, OrientLine, Orientation, orient, write_orient_line};
use iges_base::{NoMemory, Out};
use solid_data::{RowId, RowList, ShellAt, Solid};
use std::alloc::Global;

/// The numbers of rows, which count from 1.
fn numbers_of(alloc: Global, rows: &[RowId]) -> Result<NumberList, NoMemory>
    requires { AllByRecursion (λ r. r < PART_LIMIT) (row_numbers rows.now) }
    ensures { IfOk result (λ numbers. numbers ≡ map suc (row_numbers rows.now)) }
{
    let mut numbers = NumberList::new(alloc);
    'rows: for i in 0..rows.len() {
        numbers.push(rows[i].0 + 1)?;
    }
    Ok(numbers)
}

/// The line of a shell: flags that fit, or a ring.
fn shell_line(alloc: Global, solid: &Solid, at: ShellAt) -> Result<OrientLine, OrientFault>
    requires { at.0 < length solid.now.shells }
    ensures fits { IfOk result (FitsAs solid.now (at.0 + 2)) }
    ensures spelled { IfOk result HasSpelling }
    ensures ready { OnOk result (IsReady solid.now at.0) }
    ensures fault { IfErr result (IsFault (IsFirstFailing solid.now at.0)) }
{
    // Its clause says that the solid is numbered, and so has few shells.
    let _count = solid.shell_count();
    match orient(alloc, solid, at)? {
        Orientation::Flags(flags) => Ok(OrientLine::Flags {
            shell: at.0 + 1,
            flags,
        }),
        Orientation::Ring(rows) => Ok(OrientLine::Ring {
            shell: at.0 + 1,
            rows: numbers_of(alloc, rows.as_slice())?,
        }),
    }
}

fn put_line(alloc: Global, out: &mut Out, line: &OrientLine) -> Result<(), NoMemory>
    ensures { IfOk result (λ _. out.new ≡ out.old ++ spelling line.now) }
{
    let text = write_orient_line(alloc, line)?;
    out.put(text.as_slice())
}

fn is_ring(line: &OrientLine) -> bool
    requires { HasSpelling line.now }
    ensures { MatchBool result (IsRingLine (spelling line.now)) (¬ IsRingLine (spelling line.now)) }
{
    matches!(line, OrientLine::Ring { .. })
}

/// Puts the line of a shell after those before it, and says whether a ring is among them all.
fn put_shell(
    alloc: Global,
    out: &mut Out,
    line: &OrientLine,
    ringed: bool,
) -> Result<bool, NoMemory>
    requires { HasSpelling line.now }
    ensures { IfOk result (λ more. (s : SolidData) (n count : ℕ) → IsBegun s n count ringed out.old
        → FitsAs s (count + 2) line.now → IsBegun s n (count + 1) more out.new) }
{
    put_line(alloc, out, line)?;
    if is_ring(line) {
        return Ok(true);
    }
    Ok(ringed)
}

fn answer_of(ringed: bool) -> Answer
    ensures { MatchBool ringed (result ≡ answer.No) (result ≡ answer.Done) }
{
    if ringed { Answer::No } else { Answer::Done }
}

/// An orientation of all shells, or the first shell and rule that fail.
pub(crate) fn orientation(alloc: Global, solid: &Solid) -> Result<Reply, OrientFault>
    ensures ready { OnOk result (OfAllShells IsReady solid.now) }
    ensures text { IfOk result
        (λ reply. IsOriented solid.now solid.now.entity.0 reply.answer reply.text) }
    ensures fault { IfErr result (IsFault (IsFirstUnready solid.now)) }
{
    let mut out = Out::new(alloc);
    put_line(alloc, &mut out, &OrientLine::Head(solid.entity()))?;
    let mut ringed = false;
    'shells: for k in 0..solid.shell_count() {
        let line = shell_line(alloc, solid, ShellAt(k as u32))?;
        ringed = put_shell(alloc, &mut out, &line, ringed)?;
    }
    put_line(alloc, &mut out, &OrientLine::End)?;
    Ok(Reply {
        answer: answer_of(ringed),
        text: out.into_bytes(),
    })
}
