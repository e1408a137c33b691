//! How the next line most likely ends: with the same letter and the next number.

ghost use Rattle.iges_lines.specs.Foretold.{IsNextEnding};
ghost use Rattle.iges_lines.specs.Lines.{columns};
ghost use Rattle.std.specs.Prelude.{◌≡◌, ◌<◌, ◌+◌, length, slice_index, slice_set, IfSome, IsTrue, MatchOption};

use crate::line::columns;

/// The last eight columns of a line: its letter and its number.
pub fn ending_of(line: &[u8]) -> [u8; 8]
    requires { length line.now ≡ 80 }
    ensures { result ≡ columns 73 80 line.now }
{
    let mut ending = [0; 8];
    ending.copy_from_slice(columns(line, 73, 80));
    ending
}

// Whether eight bytes are the others, which are compared at once.
#[inline(always)]
fn are_alike(left: [u8; 8], right: [u8; 8]) -> bool
    ensures { IsTrue result → left ≡ right }
{
    u64::from_le_bytes(left) == u64::from_le_bytes(right)
}

/// Whether the line has 80 columns and the ending that is due.
#[inline(always)]
pub fn is_due(line: &[u8], due: Option<[u8; 8]>) -> bool
    ensures { IsTrue result → MatchOption due ⊥
        (λ ending. (length line.now ≡ 80) × (columns 73 80 line.now ≡ ending)) }
{
    match due {
        Some(ending) => line.len() == 80 && are_alike(ending_of(line), ending),
        None => false,
    }
}

// One more in the last of eight bytes, the first of which is the lowest of their number.
const LAST_BYTE: u64 = 0x0100_0000_0000_0000;

// The same with a last byte that is greater by one, by an addition to all eight.
#[inline(always)]
fn with_last_more(bytes: [u8; 8]) -> [u8; 8]
    requires { slice_index bytes 7 < 255 }
    ensures { result ≡ slice_set bytes 7 (slice_index bytes 7 + 1) }
{
    (u64::from_le_bytes(bytes) + LAST_BYTE).to_le_bytes()
}

// The ending of the next line, where this one ends with 9 and another digit is before it.
#[inline(never)]
fn next_ten(ending: [u8; 8]) -> Option<[u8; 8]>
    requires { slice_index ending 7 ≡ 57 }
    ensures { IfSome result (IsNextEnding ending) }
{
    let ten = ending[6];
    if ten < b'0' || ten > b'8' {
        return None;
    }
    let mut next = ending;
    next[6] = ten + 1;
    next[7] = b'0';
    Some(next)
}

/// The ending of the next line, where no more than its last two digits are others.
#[inline(always)]
pub fn next_ending(ending: [u8; 8]) -> Option<[u8; 8]>
    ensures { IfSome result (IsNextEnding ending) }
{
    let last = ending[7];
    if b'0' <= last && last < b'9' {
        return Some(with_last_more(ending));
    }
    if last == b'9' { next_ten(ending) } else { None }
}
