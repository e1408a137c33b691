//! The facts that tell where in the file a value of a record stands.

ghost use Rattle.std.specs.Prelude.{◌≡◌, ◌<◌, ◌^◌, ◌++◌, OnOk, replicate};
ghost use Rattle.value_lines.specs.ValueLines.{line_fact, mark_fact, marked_width, in_lines, span_facts, text_fact, value_lines};

use crate::record_text::record_text;
use iges_base::{EntryNo, NoMemory, Out};
use iges_fields::Values;
use std::alloc::Global;
use where_places::{PlacedFile, RecordLines, Span, from_line, line_of, value_span};
use where_text::{put_masked, put_number};

/// The columns of a line that hold the text of a record (IGES 5.3, 2.2.4.5).
const WIDTH: usize = 64;

#[tactic(auto, unfolding(crate::specs::ValueLines::line_fact))]
fn put_line(out: &mut Out, line: u64, column: u64) -> Result<(), NoMemory>
    ensures { OnOk result (out.new ≡ out.old ++ line_fact line column) }
{
    out.put(b"  line")?;
    put_number(out, line)?;
    out.put(b" column")?;
    put_number(out, column)?;
    out.put(b"\n")
}

/// Appends the fact that shows a line, with bytes that can't be shown masked.
#[tactic(auto, unfolding(crate::specs::ValueLines::text_fact))]
pub fn put_text(out: &mut Out, line: &[u8]) -> Result<(), NoMemory>
    ensures { OnOk result (out.new ≡ out.old ++ text_fact line.now) }
{
    out.put(b"  text ")?;
    put_masked(out, line)?;
    out.put(b"\n")
}

fn put_times(out: &mut Out, byte: u8, count: usize) -> Result<(), NoMemory>
    ensures { OnOk result (out.new ≡ out.old ++ replicate count byte) }
{
    let mut left = count;
    'times: while left > 0 {
        out.put(&[byte])?;
        left -= 1;
    }
    Ok(())
}

/// Appends the fact that marks so many columns of the line above, behind so many others.
#[tactic(auto, unfolding(crate::specs::ValueLines::mark_fact))]
pub fn put_mark(out: &mut Out, before: usize, width: usize) -> Result<(), NoMemory>
    ensures { OnOk result (out.new ≡ out.old ++ mark_fact before width) }
{
    out.put(b"  mark ")?;
    put_times(out, b' ', before)?;
    put_times(out, b'^', width)?;
    out.put(b"\n")
}

fn marked_width(span: Span) -> usize
    ensures { result ≡ marked_width span }
{
    span.width.min(WIDTH - span.at % WIDTH).max(1)
}

// The facts of a span of the text of a record whose first line has this number.
#[tactic(auto, unfolding(crate::specs::ValueLines::span_facts))]
fn put_span(out: &mut Out, bytes: &[u8], first: u64, span: Span) -> Result<(), NoMemory>
    requires { first < 2 ^ 33 }
    ensures { OnOk result (out.new ≡ out.old ++ span_facts bytes.now first span) }
{
    let line = first + (span.at / WIDTH) as u64;
    let before = span.at % WIDTH;
    put_line(out, line, before as u64 + 1)?;
    put_text(out, line_of(from_line(bytes, line.saturating_sub(1))))?;
    put_mark(out, before, marked_width(span))
}

// The facts of the k-th of the values of a record in these lines.
fn put_in_lines(
    alloc: Global,
    out: &mut Out,
    placed: &PlacedFile,
    values: &Values,
    k: usize,
    lines: RecordLines,
) -> Result<(), NoMemory>
    ensures { OnOk result (out.new ≡ out.old ++ in_lines placed.now k values.now lines) }
{
    let bytes = placed.bytes.as_slice();
    let first = placed.places.first_line(lines);
    let text = record_text(alloc, bytes, first, lines.count)?;
    let delims = placed.file.global().delims;
    let span = value_span(&delims, values.as_slice(), k, text.as_slice());
    put_span(out, bytes, first, span)
}

/// Appends the facts that tell where in the file the k-th value of an entry's record stands, from 0: the line and the column,
/// the line itself, and a mark below the value (IGES 5.3, 2.2.4.5). Nothing where the number names no entry.
#[tactic(auto, unfolding(crate::specs::ValueLines::value_lines))]
pub fn put_value_lines(
    alloc: Global,
    out: &mut Out,
    placed: &PlacedFile,
    no: EntryNo,
    k: usize,
) -> Result<(), NoMemory>
    ensures text { OnOk result (out.new ≡ out.old ++ value_lines placed.now no.0 k) }
{
    let Some(values) = placed.file.values(no) else {
        return Ok(());
    };
    let Some(lines) = placed.places.record_lines(no) else {
        return Ok(());
    };
    put_in_lines(alloc, out, placed, values, k, lines)
}
