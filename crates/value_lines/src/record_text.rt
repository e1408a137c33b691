//! The text of a record.

ghost use Rattle.std.specs.Prelude.{◌≡◌, IfOk, take};
ghost use Rattle.value_lines.specs.RecordText.{record_text, text_columns};

use iges_base::{Bytes, NoMemory, Out};
use std::alloc::Global;
use where_places::{from_line, line_of};

// The first of these bytes.
fn first_bytes(bytes: &[u8], count: usize) -> &[u8]
    ensures { result.now ≡ take count bytes.now }
{
    &bytes[..count.min(bytes.len())]
}

// Columns 1 to 64 of so many lines, of which the first is at the front.
fn text_columns(alloc: Global, bytes: &[u8], count: u32) -> Result<Bytes, NoMemory>
    ensures { IfOk result (λ text. text ≡ text_columns count bytes.now) }
{
    let mut text = Out::new(alloc);
    let mut rest = bytes;
    let mut left = count;
    'lines: while left > 0 {
        text.put(first_bytes(line_of(rest), 64))?;
        rest = from_line(rest, 1);
        left -= 1;
    }
    Ok(text.into_bytes())
}

/// The text of a record: columns 1 to 64 of so many lines of the file, of which the first has this number, from 1 (IGES 5.3,
/// 2.2.4.5).
#[tactic(auto, unfolding(crate::specs::RecordText::record_text))]
pub fn record_text(alloc: Global, bytes: &[u8], first: u64, count: u32) -> Result<Bytes, NoMemory>
    ensures { IfOk result (λ text. text ≡ record_text bytes.now first count) }
{
    text_columns(alloc, from_line(bytes, first.saturating_sub(1)), count)
}
