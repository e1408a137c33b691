//! The tests that each line must pass, in their order.

ghost use Rattle.iges_base.specs.First.{first_failing};
ghost use Rattle.iges_base.specs.Word.{is_empty};
ghost use Rattle.iges_lines.specs.Judged.{tests_behind};
ghost use Rattle.iges_lines.specs.LineFaults.{line_tests};
ghost use Rattle.iges_lines.specs.Lines.{sections};
ghost use Rattle.std.specs.List.{list_all};
ghost use Rattle.std.specs.Prelude.{◌≡◌, ◌==◌, ◌&&◌, ◌||◌};

use crate::kind::kind_of;
use crate::line::{columns, holds_number, is_blank_line, is_whole, letter_of};
use crate::reason::Reason;
use crate::section_table::SectionTable;

// Whether the letter is that of a file's first line in another form.
fn is_other_form(before: &SectionTable, letter: u8) -> bool
    ensures { result ≡ (list_all is_empty (sections before.now) && (letter == 66 || letter == 67)) }
{
    before.is_first() && (letter == b'B' || letter == b'C')
}

// What is wrong with a line that no terminate line comes before.
fn judge(before: &SectionTable, line: &[u8]) -> Option<Reason>
    ensures { result ≡ first_failing (line_tests before.now line.now) }
{
    let letter = letter_of(line);
    let kind = kind_of(letter);
    if is_other_form(before, letter) {
        return Some(Reason::NotFixed);
    }
    if !is_whole(line) {
        return Some(Reason::Length);
    }
    if !before.is_in_order(kind) {
        return Some(Reason::Letter);
    }
    if !before.is_due(kind) {
        return Some(Reason::Missing);
    }
    if !holds_number(columns(line, 74, 80), before.next_number(kind)) {
        return Some(Reason::Number);
    }
    if !before.has_counts_if_last(kind, line) {
        return Some(Reason::Counts);
    }
    None
}

/// What is wrong with a line, where it is known whether a terminate line comes before it.
pub fn fault_of(before: &SectionTable, terminated: bool, line: &[u8]) -> Option<Reason>
    ensures { result ≡ first_failing (tests_behind terminated before.now line.now) }
{
    if !terminated {
        return judge(before, line);
    }
    if is_blank_line(line) {
        None
    } else {
        Some(Reason::After)
    }
}
