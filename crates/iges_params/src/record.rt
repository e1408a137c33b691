//! One record as it is read: its back pointers, its type number and its values.

ghost use Rattle.iges_directory.specs.Entries.{has_record};
ghost use Rattle.iges_fields.specs.Delims.{are_permitted};
ghost use Rattle.iges_base.specs.InLine.{is_in_line};
ghost use Rattle.iges_base.specs.declared.TheConstants.{FILE_LIMIT};
ghost use Rattle.iges_lines.specs.Gives.{Gives};
ghost use Rattle.iges_lines.specs.Lines.{columns};
ghost use Rattle.iges_params.specs.Reading.{above, read_record, used_values, without_type};
ghost use Rattle.iges_params.specs.Records.{is_number, points_back, record_lines};
ghost use Rattle.std.specs.List.{position_from};
ghost use Rattle.std.specs.Ordering.{int_eq};
ghost use Rattle.std.specs.Prelude.{◌≡◌, ◌+◌, ◌-◌, ◌*◌, ◌<◌, ◌≤◌, ◌^◌, [], ◌∷◌, ℕ, IfOk, IfSome, IsTrue, Some, flat_map, length, not, pos, slice_get, slice_range, unsigned_abs};

use crate::part::{Part, put_text};
use crate::passage::{Passage, bad, parted_passage};
use crate::pointer::{carries, carries_too};
use iges_base::{FILE_LIMIT, NoMemory};
use iges_directory::{Entry, Placed};
use iges_fields::{Delimiters, Value, Values};
use iges_lines::{PassFault, Reason, Sections, columns};
use std::alloc::Global;

/// Parameter lines, and by what records are read from them.
#[derive(Clone, Copy)]
pub struct Params<'l> {
    /// The sections of the file. Parameter lines that no record is read from any more may be missing at the end.
    pub lines: &'l Sections,
    /// How many lines come before the parameter lines in the file.
    pub above: u64,
    /// The delimiters of the values.
    pub delims: Delimiters,
}

// The first of so many parameter lines, from a place on, that doesn't carry the number of the entry, counted from 0; the
// first of them does.
fn later_foreign(
    sections: &Sections,
    from: usize,
    count: usize,
    number: usize,
    known: &[u8],
) -> Option<usize>
    requires within { from + count ≤ length sections.now.param }
    requires few { from + count < 2 ^ 64 }
    requires number { number < 2 ^ 63 }
    requires some { 0 < count }
    requires long { length known.now ≡ 80 }
    requires first { slice_get sections.now.param from ≡ Some known.now }
    requires back { IsTrue (points_back number known.now) }
    ensures place { result ≡ position_from (λ l. not (points_back number l)) 0
        (slice_range sections.now.param from (from + count)) }
    ensures within { IfSome result (λ i. i < count) }
{
    'lines: for i in 1..count {
        let Some(line) = sections.param(from + i) else {
            unreachable!();
        };
        if !carries_too(known, line, number) {
            return Some(i);
        }
    }
    None
}

// The first of so many parameter lines, from a place on, that doesn't carry the number of the entry, counted from 0.
fn first_foreign(sections: &Sections, from: usize, count: usize, number: usize) -> Option<usize>
    requires within { from + count ≤ length sections.now.param }
    requires few { from + count < 2 ^ 64 }
    requires number { number < 2 ^ 63 }
    ensures place { result ≡ position_from (λ l. not (points_back number l)) 0
        (slice_range sections.now.param from (from + count)) }
    ensures within { IfSome result (λ i. i < count) }
{
    if count == 0 {
        return None;
    }
    let Some(line) = sections.param(from) else {
        unreachable!();
    };
    if !carries(line, number) {
        return Some(0);
    }
    later_foreign(sections, from, count, number, line)
}

// Columns 1 to 64 of so many parameter lines, from a place on. They are put in place of `text` unless they are those of
// one line.
fn record_text<'t>(
    sections: &'t Sections,
    from: usize,
    count: usize,
    text: &'t mut Vec<u8>,
) -> Result<&'t [u8], NoMemory>
    requires within { from + count ≤ length sections.now.param }
    requires few { from + count < 2 ^ 64 }
    ensures text { IfOk result (λ t. t.now ≡ flat_map (columns 1 64)
        (slice_range sections.now.param from (from + count))) }
    ensures in_line { IfOk result (λ t. IsTrue (is_in_line t.now)) }
{
    if count == 1 {
        let Some(line) = sections.param(from) else {
            unreachable!();
        };
        return Ok(columns(line, 1, 64));
    }
    put_text(text, sections, Part::Param, 64, from, count)?;
    Ok(text.as_slice())
}

// Whether the value is this integer.
fn is_number(n: &i64, value: &Value) -> bool
    ensures { result ≡ is_number n.now value.now }
{
    match value {
        Value::Int(m) => m == n,
        _ => false,
    }
}

// A record's values after its first, which must be the type number.
fn behind_type(first: u64, kind: &i64, number: &Value, others: Values) -> Result<Values, PassFault>
    ensures { Gives result (without_type first kind.now (number.now ∷ others)) }
{
    if !is_number(kind, number) {
        return Err(bad(first, Reason::RecordType));
    }
    Ok(others)
}

/// How many lines come before the parameter lines.
pub fn lines_above(sections: &Sections) -> u64
    ensures is { result ≡ above sections.now }
    ensures few { 80 * (result + length sections.now.param) ≤ FILE_LIMIT }
{
    (sections.start_count() + sections.global_count() + sections.directory_count()) as u64
}

fn magnitude(n: &i64) -> usize
    ensures { result ≡ unsigned_abs n.now }
{
    n.unsigned_abs() as usize
}

// Whether the entry is of type 0.
fn is_unused(entry: &Entry) -> bool
    ensures { result ≡ int_eq entry.now.kind (pos 0) }
{
    entry.kind == 0
}

/// How many parameter lines a file must have for the record of the entry, none for type 0.
pub fn need_of(placed: &Placed) -> usize
    requires { (n : ℕ) × (n < 2 ^ 62) × IsTrue
        (has_record n placed.now.entry.kind placed.now.first placed.now.count) }
    ensures { IsTrue (has_record result placed.now.entry.kind placed.now.first placed.now.count) }
{
    if is_unused(&placed.entry) {
        return 0;
    }
    magnitude(&placed.first) - 1 + magnitude(&placed.count)
}

// The values of the record of an entry that isn't of type 0.
fn used_values(
    alloc: Global,
    params: &Params<'_>,
    number: usize,
    placed: &Placed,
    text: &mut Vec<u8>,
    spare: &mut Values,
) -> Result<Values, PassFault>
    requires permitted { IsTrue (are_permitted params.now.delims) }
    requires number { number < 2 ^ 63 }
    requires few { 80 * (params.now.above + length params.now.lines.now.param) ≤ FILE_LIMIT }
    requires first { 0 < unsigned_abs placed.now.first }
    requires within { unsigned_abs placed.now.first - 1 + unsigned_abs placed.now.count
        ≤ length params.now.lines.now.param }
    requires spare_empty { spare.old ≡ [] }
    ensures gives { Gives result (used_values params.now.above params.now.lines.now.param params.now.delims number placed.now) }
    ensures spare_empty { spare.new ≡ [] }
{
    let place = magnitude(&placed.first);
    let count = magnitude(&placed.count);
    let first = params.above + place as u64;
    if let Some(i) = first_foreign(params.lines, place - 1, count, number) {
        return Err(bad(first + i as u64, Reason::BackPointer));
    }
    let columns = record_text(params.lines, place - 1, count, text)?;
    let passage = Passage {
        columns,
        text: columns,
        first,
        width: 64,
    };
    let (number, others) = parted_passage(
        alloc,
        &passage,
        params.delims,
        Reason::RecordValue,
        spare,
    )?;
    behind_type(first, &placed.entry.kind, &number, others)
}

/// The values of the record of the entry with this number, none for type 0. The record's text, columns 1 to 64 of its
/// lines (IGES 5.3, 2.2.4.5), is put in place of `text`. The spare list lends its room.
pub fn read_record(
    alloc: Global,
    params: &Params<'_>,
    number: usize,
    placed: &Placed,
    text: &mut Vec<u8>,
    spare: &mut Values,
) -> Result<Values, PassFault>
    requires permitted { IsTrue (are_permitted params.now.delims) }
    requires number { number < 2 ^ 63 }
    requires few { 80 * (params.now.above + length params.now.lines.now.param) ≤ FILE_LIMIT }
    requires record { IsTrue (has_record
        (length params.now.lines.now.param) placed.now.entry.kind placed.now.first placed.now.count) }
    requires spare_empty { spare.old ≡ [] }
    ensures gives { Gives result (read_record params.now.above params.now.lines.now.param params.now.delims number placed.now) }
    ensures spare_empty { spare.new ≡ [] }
{
    if is_unused(&placed.entry) {
        return Ok(Values::new(alloc));
    }
    used_values(alloc, params, number, placed, text, spare)
}
