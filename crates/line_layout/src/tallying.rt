//! How often each change happens in a file, and where first.

ghost use Rattle.iges_base.specs.declared.TheConstants.{FILE_LIMIT};
ghost use Rattle.line_layout.specs.Changes.{changed_lines, noted, once, tally_of};
ghost use Rattle.std.specs.Prelude.{◌≡◌, ◌+◌, ◌≤◌, ◌<◌, ◌^◌, length};

use crate::change::{Change, ChangeCount};
use crate::changing::{dropped, happens, has_feed, is_of_counts, lines_after};
use crate::counting::no_lines;
use crate::judging::judge;
use crate::piece::{end_byte, first_piece};

// With so many more, in one line.
fn noted(tally: ChangeCount, line: u64, times: u64) -> ChangeCount
    requires { tally.times + times < 2 ^ 64 }
    ensures is { result ≡ noted tally line times }
    ensures times { result.times ≡ tally.times + times }
{
    if times == 0 {
        return tally;
    }
    let first = if tally.times == 0 { line } else { tally.first };
    ChangeCount {
        times: tally.times + times,
        first,
    }
}

fn once(happens: bool) -> u64
    ensures is { result ≡ once happens }
    ensures few { result ≤ 1 }
{
    if happens { 1 } else { 0 }
}

/// How often `relaid` changes this, where it makes a file, and the first line of the file where it does. Of a blank line
/// after the terminate line, and of all that follows it, it counts the bytes alone.
pub fn tally(bytes: &[u8], change: Change) -> ChangeCount
    requires { length bytes.now ≤ FILE_LIMIT }
    ensures { result ≡ tally_of (changed_lines change bytes.now) }
{
    let ending = end_byte(bytes);
    let mut found = ChangeCount { times: 0, first: 0 };
    let mut counts = no_lines();
    let mut number = 1;
    let mut left = bytes;
    'pieces: while !left.is_empty() {
        let (piece, after) = first_piece(left, ending);
        let judged = judge(counts, piece);
        let feed = has_feed(ending, left, piece, after);
        found = noted(
            found,
            number,
            once(happens(change, counts, judged, piece, feed)),
        );
        number += 1;
        match lines_after(counts, judged) {
            Some(more) => counts = more,
            None => return noted(found, number, dropped(change, judged, after)),
        }
        left = after;
    }
    noted(found, number, once(is_of_counts(change)))
}
