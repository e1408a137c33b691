//! One line of the layout: its content, letter, number and end.

ghost use Rattle.line_layout.specs.Counts.{AreFew, count_of, next_number};
ghost use Rattle.line_layout.specs.Rows.{content, count_field, counts_columns, has_counts, keeps_number, number_field, right, row};
ghost use Rattle.iges_base.specs.Ended.{ended};
ghost use Rattle.std.specs.Prelude.{◌≡◌, ◌≤◌, ◌<◌, ◌++◌, ◌∷◌, ◌^◌, [], OnOk, decimal};

use crate::columns::{columns, holds_count, holds_number};
use crate::counting::{LineCounts, count_of};
use crate::letters::{Section, letter_of};
use iges_base::{NoMemory, Out};
use itoa::write_digits;

// Appends a number at the right of seven columns.
fn put_seven(out: &mut Out, n: u64) -> Result<(), NoMemory>
    requires { n ≤ 9_999_999 }
    ensures { OnOk result (out.new ≡ out.old ++ right 7 (decimal n)) }
{
    let mut columns = [b' '; 7];
    write_digits(n, &mut columns, 7);
    out.put(&columns)
}

// Appends a letter and a number at the right of seven columns.
fn put_count(out: &mut Out, letter: u8, n: u64) -> Result<(), NoMemory>
    requires { n ≤ 9_999_999 }
    ensures { OnOk result (out.new ≡ out.old ++ count_field letter n) }
{
    out.put(&[letter])?;
    put_seven(out, n)
}

// Appends the columns 1 to 72 of a terminate line.
#[tactic(auto, unfolding(crate::specs::Rows::counts_columns))]
fn put_counts(out: &mut Out, counts: LineCounts) -> Result<(), NoMemory>
    requires { AreFew counts }
    ensures { OnOk result (out.new ≡ out.old ++ counts_columns counts) }
{
    put_count(out, b'S', counts.start)?;
    put_count(out, b'G', counts.global)?;
    put_count(out, b'D', counts.directory)?;
    put_count(out, b'P', counts.param)?;
    out.put(&[b' '; 40])
}

// Whether the line gives these counts.
pub(crate) fn holds_counts(counts: LineCounts, line: &[u8]) -> bool
    requires { AreFew counts }
    ensures { result ≡ has_counts counts line.now }
{
    holds_count(columns(line, 1, 8), b'S', counts.start)
        && holds_count(columns(line, 9, 16), b'G', counts.global)
        && holds_count(columns(line, 17, 24), b'D', counts.directory)
        && holds_count(columns(line, 25, 32), b'P', counts.param)
}

// Appends the columns 1 to 72.
#[tactic(auto, unfolding(crate::specs::Rows::content))]
fn put_content(
    out: &mut Out,
    counts: LineCounts,
    section: Section,
    line: &[u8],
) -> Result<(), NoMemory>
    requires { AreFew counts }
    ensures { OnOk result (out.new ≡ out.old ++ content counts section line.now) }
{
    match section {
        Section::Start | Section::Global | Section::Directory | Section::Param => {
            out.put(columns(line, 1, 72))
        }
        Section::Terminate => {
            if holds_counts(counts, line) {
                return out.put(columns(line, 1, 72));
            }
            put_counts(out, counts)
        }
    }
}

// Whether the line has all columns, and those from 74 on hold the number.
pub(crate) fn keeps_number(n: u64, line: &[u8]) -> bool
    requires { n < 2 ^ 63 }
    ensures { result ≡ keeps_number n line.now }
{
    line.len() >= 80 && holds_number(columns(line, 74, 80), n)
}

// Appends the columns 74 to 80.
#[tactic(auto, unfolding(crate::specs::Rows::number_field))]
fn put_number(out: &mut Out, n: u64, line: &[u8]) -> Result<(), NoMemory>
    requires { n ≤ 9_999_999 }
    ensures { OnOk result (out.new ≡ out.old ++ number_field n line.now) }
{
    if keeps_number(n, line) {
        return out.put(columns(line, 74, 80));
    }
    put_seven(out, n)
}

// Appends the next line of a section, with its end.
#[tactic(auto, unfolding(crate::specs::Rows::row))]
pub(crate) fn put_row(
    out: &mut Out,
    counts: LineCounts,
    section: Section,
    line: &[u8],
) -> Result<(), NoMemory>
    requires few { AreFew counts }
    requires next { count_of counts section < 9_999_999 }
    ensures { OnOk result (out.new ≡ out.old ++ ended (row counts section line.now)) }
{
    put_content(out, counts, section, line)?;
    out.put(&[letter_of(section)])?;
    put_number(out, count_of(counts, section) + 1, line)?;
    out.put(b"\n")
}
