//! The values of a text that lies in lines, and the line of one that fails.

ghost use Rattle.iges_fields.specs.Delims.{are_permitted};
ghost use Rattle.iges_base.specs.InLine.{is_in_line};
ghost use Rattle.iges_lines.specs.Gives.{Fails, Gives};
ghost use Rattle.iges_params.specs.Global.{line_of_byte};
ghost use Rattle.iges_params.specs.Reading.{read_passage};
ghost use Rattle.std.specs.Prelude.{◌≡◌, ◌+◌, ◌-◌, ◌<◌, ◌≤◌, ◌^◌, [], ◌∷◌, Ok, IfOk, IfErr, IsTrue, length};

use iges_fields::{Delimiters, Value, Values, ValuesFault, parted_values_by, values};
use iges_lines::{LineFault, PassFault, Reason};
use std::alloc::Global;

/// A free text at the end of the columns that it lies in, which are joined line by line.
#[derive(Clone, Copy)]
pub struct Passage<'t> {
    /// The bytes of all lines, `width` of each.
    pub columns: &'t [u8],
    /// The free text, at the end of `columns`.
    pub text: &'t [u8],
    /// The number of the first line in the file, from 1.
    pub first: u64,
    /// The bytes of each line.
    pub width: usize,
}

/// The fault of a line, by its number in the file, from 1.
pub fn bad(line: u64, reason: Reason) -> PassFault
    ensures { result ≡ PassFault.Bad (record { line = line; reason = reason }) }
{
    PassFault::Bad(LineFault { line, reason })
}

// The number of the line in the file that holds a byte of the text, and that of the last line for the text's end.
fn line_of(passage: &Passage<'_>, at: usize) -> u64
    requires width { 0 < passage.now.width }
    requires end { length passage.now.text.now ≤ length passage.now.columns.now }
    requires within { at ≤ length passage.now.text.now }
    requires few { passage.now.first + length passage.now.columns.now < 2 ^ 64 }
    ensures { result ≡ passage.now.first + line_of_byte passage.now.width passage.now.columns.now
        (length passage.now.columns.now - length passage.now.text.now + at) }
{
    let place = passage.columns.len() - passage.text.len() + at;
    let last = (passage.columns.len() / passage.width).saturating_sub(1);
    passage.first + (place / passage.width).min(last) as u64
}

/// The values that the text begins with, or the line of its fault, for this reason.
pub fn passage_values(
    alloc: Global,
    passage: &Passage<'_>,
    delims: Delimiters,
    reason: Reason,
) -> Result<Values, PassFault>
    requires permitted { IsTrue (are_permitted delims) }
    requires in_line { IsTrue (is_in_line passage.now.text.now) }
    requires width { 0 < passage.now.width }
    requires end { length passage.now.text.now ≤ length passage.now.columns.now }
    requires few { passage.now.first + length passage.now.columns.now < 2 ^ 64 }
    ensures { Gives result
        (read_passage passage.now.first passage.now.width passage.now.columns.now reason delims passage.now.text.now) }
{
    match values(alloc, passage.text, delims) {
        Ok((values, _)) => Ok(values),
        Err(ValuesFault::Field(fault)) => Err(bad(line_of(passage, fault.at), reason)),
        Err(ValuesFault::NoMemory) => Err(PassFault::NoMemory),
    }
}

/// The same, the first value apart from the others, which take no more memory than they need. The spare list lends its
/// room.
pub fn parted_passage(
    alloc: Global,
    passage: &Passage<'_>,
    delims: Delimiters,
    reason: Reason,
    spare: &mut Values,
) -> Result<(Value, Values), PassFault>
    requires permitted { IsTrue (are_permitted delims) }
    requires in_line { IsTrue (is_in_line passage.now.text.now) }
    requires width { 0 < passage.now.width }
    requires end { length passage.now.text.now ≤ length passage.now.columns.now }
    requires few { passage.now.first + length passage.now.columns.now < 2 ^ 64 }
    requires spare_empty { spare.old ≡ [] }
    ensures ok { IfOk result
        (λ x. read_passage passage.now.first passage.now.width passage.now.columns.now reason delims passage.now.text.now ≡ Ok (x.0 ∷ x.1)) }
    ensures err { IfErr result (λ e. Fails e
        (read_passage passage.now.first passage.now.width passage.now.columns.now reason delims passage.now.text.now)) }
    ensures spare_empty { spare.new ≡ [] }
{
    match parted_values_by(alloc, passage.text, delims, spare) {
        Ok(parts) => Ok(parts),
        Err(ValuesFault::Field(fault)) => Err(bad(line_of(passage, fault.at), reason)),
        Err(ValuesFault::NoMemory) => Err(PassFault::NoMemory),
    }
}
