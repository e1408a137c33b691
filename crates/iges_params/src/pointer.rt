//! Back pointers: whether a parameter line names its entry.

ghost use Rattle.iges_base.specs.Word.{column_number};
ghost use Rattle.iges_lines.specs.Lines.{columns};
ghost use Rattle.iges_params.specs.Records.{points_back};
ghost use Rattle.std.specs.Int.{to_be_bytes, w64};
ghost use Rattle.std.specs.Prelude.{◌≡◌, ◌+◌, ◌%◌, ◌^◌, ◌<◌, IfSome, IsTrue, Some, drop, length, pos};

use iges_base::low_digit;
use iges_directory::short_number;
use iges_lines::{columns, holds_number};

// Columns 65 to 72 of a line.
fn pointer_bytes(line: &[u8]) -> [u8; 8]
    requires { length line.now ≡ 80 }
    ensures { result ≡ columns 65 72 line.now }
{
    let mut bytes = [0; 8];
    bytes.copy_from_slice(columns(line, 65, 72));
    bytes
}

fn word_of(bytes: [u8; 8]) -> u64
    ensures { to_be_bytes w64 result ≡ bytes }
{
    u64::from_be_bytes(bytes)
}

// The number in the last seven of eight columns, where it has two zeros and then five digits.
#[inline(always)]
fn five_digits(word: u64) -> Option<u64>
    ensures { IfSome result (λ n. column_number (drop 1 (to_be_bytes w64 word)) ≡ Some (pos n)) }
{
    if word / 0x100_0000_0000 % 0x1_0000 != 0x3030 {
        return None;
    }
    let ones = low_digit(word)?;
    let tens = low_digit(word / 0x100)?;
    let hundreds = low_digit(word / 0x1_0000)?;
    let thousands = low_digit(word / 0x100_0000)?;
    let over = low_digit(word / 0x1_0000_0000)?;
    Some(over * 10000 + thousands * 1000 + hundreds * 100 + tens * 10 + ones)
}

// The number in the last seven of eight columns, where they are spaces and then at most six digits.
#[inline(always)]
fn number_behind_spaces(word: u64) -> Option<i64>
    ensures { IfSome result (λ n. column_number (drop 1 (to_be_bytes w64 word)) ≡ Some n) }
{
    if word / 0x100_0000_0000_0000 != 0x20 {
        return None;
    }
    short_number(word)
}

/// Whether a line carries the number of the entry.
#[inline(always)]
pub fn carries(line: &[u8], number: usize) -> bool
    requires long { length line.now ≡ 80 }
    requires number { number < 2 ^ 63 }
    ensures { result ≡ points_back number line.now }
{
    let word = word_of(pointer_bytes(line));
    // In many files it has zeros in front, and in most others spaces.
    if let Some(n) = five_digits(word) {
        if n == number as u64 {
            return true;
        }
    }
    if let Some(z) = number_behind_spaces(word) {
        if z == number as i64 {
            return true;
        }
    }
    holds_number(columns(line, 66, 72), number)
}

/// Whether a line carries the number of the entry, as another line of the record does.
#[inline(always)]
pub fn carries_too(known: &[u8], line: &[u8], number: usize) -> bool
    requires known { length known.now ≡ 80 }
    requires long { length line.now ≡ 80 }
    requires number { number < 2 ^ 63 }
    requires back { IsTrue (points_back number known.now) }
    ensures { result ≡ points_back number line.now }
{
    // Nearly all records write it alike in their lines.
    if word_of(pointer_bytes(known)) == word_of(pointer_bytes(line)) {
        return true;
    }
    holds_number(columns(line, 66, 72), number)
}
