//! Fields 2 and 14 of entries.

ghost use Rattle.iges_directory.specs.Entries.{Holds, IsEntry};
ghost use Rattle.iges_directory.specs.declared.entry.Placed.{Placed};
ghost use Rattle.std.specs.Prelude.{◌≡◌, ◌<◌, ◌≤◌, ◌^◌, ℤ, length, unsigned_abs};
ghost use Rattle.where_places.specs.Places.{record_lines_of};

use crate::places::RecordLines;
use iges_base::column_number;
use iges_lines::columns;

fn small(n: u64) -> u32
    ensures { n < 2 ^ 32 → result ≡ n }
{
    u32::try_from(n).unwrap_or(0)
}

// A number without its sign, where it is small.
fn size(number: i64) -> u32
    ensures { unsigned_abs number < 2 ^ 32 → result ≡ unsigned_abs number }
{
    small(number.unsigned_abs())
}

// The number in the k-th field of a line, from 1, without its sign; 0 where it holds none.
fn field_number(line: &[u8], k: usize) -> u32
    requires long { length line.now ≡ 80 }
    requires some { 0 < k }
    requires within { k ≤ 10 }
    ensures { (n : ℤ) → Holds k line.now n → result ≡ unsigned_abs n }
{
    match column_number(columns(line, 8 * k - 7, 8 * k)) {
        Some(number) => size(number),
        None => 0,
    }
}

/// The lines of the record of the entry that two lines hold.
pub fn record_lines(first: &[u8], second: &[u8]) -> RecordLines
    requires first { length first.now ≡ 80 }
    requires second { length second.now ≡ 80 }
    ensures { (p : Placed) → IsEntry first.now second.now p → result ≡ record_lines_of p }
{
    RecordLines {
        first: field_number(first, 2),
        count: field_number(second, 4),
    }
}
