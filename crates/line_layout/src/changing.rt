//! Which changes happen to a piece between two line ends.

ghost use Rattle.line_layout.specs.Changes.{MayCount, dropped, ends_in_CR, happens, has_feed, has_letter, is_changed, is_of_blank, is_of_counts, is_of_rest};
ghost use Rattle.line_layout.specs.Counts.{AreFew, count_of};
ghost use Rattle.line_layout.specs.Judging.{lines_after};
ghost use Rattle.std.specs.List.{list_any};
ghost use Rattle.std.specs.Prelude.{◌≡◌, ◌≤◌, ◌<◌, ◌==◌, ◌^◌, IfSome, drop, length, not};

use crate::change::Change;
use crate::columns::{beyond, columns, has_greater, number_in};
use crate::counting::{LineCounts, count_of, counted};
use crate::judging::Judged;
use crate::letters::{Section, is_last, letter_of};
use crate::marks::unmarked;
use crate::row::{holds_counts, keeps_number};

// Whether LF ends a piece that is followed by these bytes.
pub(crate) fn has_feed(ending: u8, bytes: &[u8], piece: &[u8], after: &[u8]) -> bool
    requires { length after.now ≤ length bytes.now }
    ensures { result ≡ has_feed ending bytes.now piece.now after.now }
{
    ending == b'\n' && piece.len() < bytes.len() - after.len()
}

fn ends_in_cr(text: &[u8]) -> bool
    ensures { result ≡ ends_in_CR text.now }
{
    !text.is_empty() && text[text.len() - 1] == b'\r'
}

// Whether the letter stands in column 73.
fn has_letter(letter: u8, line: &[u8]) -> bool
    ensures { result ≡ has_letter letter line.now }
{
    line.len() > 72 && line[72] == letter
}

// Whether a byte other than CR is among the bytes after column 80.
fn is_past(line: &[u8]) -> bool
    ensures { result ≡ list_any (λ b. not (b == 13)) (drop 80 line.now) }
{
    beyond(line).iter().any(|b| *b != b'\r')
}

// Whether a line of this section is changed so, where so many lines of each come before it.
#[tactic(auto, unfolding(crate::specs::Changes::is_changed))]
fn is_changed(
    change: Change,
    counts: LineCounts,
    section: Section,
    piece: &[u8],
    feed: bool,
) -> bool
    requires few { AreFew counts }
    requires next { count_of counts section < 9_999_999 }
    ensures { result ≡ is_changed change counts section piece.now feed }
{
    let line = unmarked(piece);
    let number = count_of(counts, section) + 1;
    match change {
        Change::Mark => line.len() < piece.len(),
        Change::End => !feed || ends_in_cr(piece),
        Change::Letter => !has_letter(letter_of(section), line),
        Change::Past => is_past(line),
        Change::Number => !keeps_number(number, line),
        Change::Ahead => number < number_in(columns(line, 74, 80)),
        Change::Counts => is_last(section) && !holds_counts(counts, line),
        Change::FewerStart => {
            is_last(section) && has_greater(columns(line, 1, 8), b'S', counts.start)
        }
        Change::FewerGlobal => {
            is_last(section) && has_greater(columns(line, 9, 16), b'G', counts.global)
        }
        Change::FewerDirectory => {
            is_last(section) && has_greater(columns(line, 17, 24), b'D', counts.directory)
        }
        Change::FewerParam => {
            is_last(section) && has_greater(columns(line, 25, 32), b'P', counts.param)
        }
        Change::Blank | Change::After => false,
    }
}

// Whether a dropped blank line is meant.
fn is_of_blank(change: Change) -> bool
    ensures { result ≡ is_of_blank change }
{
    matches!(change, Change::Blank)
}

// Whether the counts are meant.
pub(crate) fn is_of_counts(change: Change) -> bool
    ensures { result ≡ is_of_counts change }
{
    matches!(change, Change::Counts)
}

// Whether the bytes after the terminate line are meant.
fn is_of_rest(change: Change) -> bool
    ensures { result ≡ is_of_rest change }
{
    matches!(change, Change::After)
}

// Whether a piece is changed so.
pub(crate) fn happens(
    change: Change,
    counts: LineCounts,
    judged: Judged,
    piece: &[u8],
    feed: bool,
) -> bool
    requires few { AreFew counts }
    requires next { MayCount counts judged }
    ensures { result ≡ happens change counts judged piece.now feed }
{
    match judged {
        Judged::Blank => is_of_blank(change),
        Judged::Bad(_) => false,
        Judged::Good(section) => is_changed(change, counts, section, piece, feed),
    }
}

// The lines so far after a piece; None where no line is looked at after it.
pub(crate) fn lines_after(counts: LineCounts, judged: Judged) -> Option<LineCounts>
    requires few { AreFew counts }
    requires next { MayCount counts judged }
    ensures is { result ≡ lines_after counts judged }
    ensures few { IfSome result AreFew }
{
    match judged {
        Judged::Blank => Some(counts),
        Judged::Bad(_) => None,
        Judged::Good(section) => {
            if is_last(section) {
                return None;
            }
            Some(counted(counts, section))
        }
    }
}

// How many of the bytes after the terminate line are dropped.
pub(crate) fn dropped(change: Change, judged: Judged, after: &[u8]) -> u64
    ensures is { result ≡ dropped change judged after.now }
    ensures few { result ≤ length after.now }
{
    match judged {
        Judged::Blank | Judged::Bad(_) => 0,
        Judged::Good(_) => {
            if is_of_rest(change) {
                return after.len() as u64;
            }
            0
        }
    }
}
