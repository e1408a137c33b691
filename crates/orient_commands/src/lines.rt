//! The lines after the first.

ghost use Rattle.std.specs.Prelude.{◌≡◌, ◌+◌, ◌<◌, ◌↔◌, [], length, IfOk, IfErr, IsTrue, OnOk};
ghost use Rattle.cert_lines.specs.Line.{cut_lines};
ghost use Rattle.orient_commands.specs.Reading.{IsTextFault, FitsFirst};
ghost use Rattle.orient_commands.specs.Shells.{IsCounted, OfAllShells};
ghost use Rattle.orient_commands.specs.Text.{AreWhole, IsFirstBad};

use crate::fault::TextFault;
use crate::fitting::fits;
use crate::reading::read_line;
use cert_lines::first_line;
use cert_text::Illegal;
use face_orient::OrientLine;
use solid_data::{ShellAt, Solid};
use std::alloc::Global;

/// The text after the line of a shell, which fits.
fn behind_shell<'a>(
    alloc: Global,
    solid: &Solid,
    at: ShellAt,
    text: &'a [u8],
) -> Result<&'a [u8], TextFault>
    requires within { at.0 < length solid.now.shells }
    requires counted { IsCounted solid.now at.0 }
    ensures found { IfOk result (λ rest. FitsFirst solid.now (at.0 + 2) text.now rest.now) }
    ensures fault { IfErr result (IsTextFault
        (IsFirstBad solid.now (at.0 + 2) (cut_lines text.now))) }
{
    let number = u64::from(at.0) + 2;
    let Some((line, rest)) = first_line(text) else {
        return Err(TextFault::Bad(Illegal::Missing { line: number }));
    };
    let read = read_line(alloc, line, number)?;
    if !fits(alloc, solid, at, &read)? {
        return Err(TextFault::Bad(Illegal::Unfit { line: number }));
    }
    Ok(rest)
}

fn is_end(line: &OrientLine) -> bool
    ensures { IsTrue result ↔ (line.now ≡ OrientLine.End) }
{
    matches!(line, OrientLine::End)
}

/// The text after END, which has this number.
fn behind_end<'a>(
    alloc: Global,
    solid: &Solid,
    number: u64,
    text: &'a [u8],
) -> Result<&'a [u8], TextFault>
    requires { number ≡ length solid.now.shells + 2 }
    ensures found { IfOk result (λ rest. FitsFirst solid.now number text.now rest.now) }
    ensures fault { IfErr result (IsTextFault (IsFirstBad solid.now number (cut_lines text.now))) }
{
    let Some((line, rest)) = first_line(text) else {
        return Err(TextFault::Bad(Illegal::Missing { line: number }));
    };
    let read = read_line(alloc, line, number)?;
    if !is_end(&read) {
        return Err(TextFault::Bad(Illegal::Unfit { line: number }));
    }
    Ok(rest)
}

/// Nothing fits after END; this is the number of the line after it.
fn end_text(alloc: Global, solid: &Solid, number: u64, text: &[u8]) -> Result<(), TextFault>
    requires { number ≡ length solid.now.shells + 3 }
    ensures none { OnOk result (cut_lines text.now ≡ []) }
    ensures fault { IfErr result (IsTextFault (IsFirstBad solid.now number (cut_lines text.now))) }
{
    let Some((line, _rest)) = first_line(text) else {
        return Ok(());
    };
    let _behind = read_line(alloc, line, number)?;
    Err(TextFault::Bad(Illegal::Unfit { line: number }))
}

/// Judges the lines after the first: a line that fits for each shell, and END.
pub(crate) fn check_lines(alloc: Global, solid: &Solid, text: &[u8]) -> Result<(), TextFault>
    requires { OfAllShells IsCounted solid.now }
    ensures whole { OnOk result (AreWhole solid.now 2 (cut_lines text.now)) }
    ensures fault { IfErr result (IsTextFault (IsFirstBad solid.now 2 (cut_lines text.now))) }
{
    let mut rest = text;
    'shells: for k in 0..solid.shell_count() {
        rest = behind_shell(alloc, solid, ShellAt(k as u32), rest)?;
    }
    let number = solid.shell_count() as u64 + 2;
    let behind = behind_end(alloc, solid, number, rest)?;
    end_text(alloc, solid, number + 1, behind)
}
