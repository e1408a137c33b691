//! From two lines of the directory to an entry, or to the line that fails.

ghost use Rattle.iges_directory.specs.Bounds.{fits_columns};
ghost use Rattle.iges_directory.specs.DirectoryFaults.{first_fields, second_fields};
ghost use Rattle.iges_directory.specs.Entries.{field, Holds, has_record};
ghost use Rattle.iges_directory.specs.Halves.{IsFirstHalf, IsSecondHalf, AnswersPair, placed_from};
ghost use Rattle.iges_base.specs.Word.{column_number};
ghost use Rattle.std.specs.Ordering.{int_eq};
ghost use Rattle.std.specs.Prelude.{◌≡◌, ◌<◌, ◌^◌, ◌+ℤ◌, length, IsTrue, IsFalse, IfSome, IfNone};

use crate::entry::{Entry, Placed};
use crate::field::{bytes_in, number_in, status_in, word_in};
use crate::half::{FirstHalf, SecondHalf};
use iges_lines::Reason;

/// Which line of an entry fails, and why.
#[derive(Clone, Copy)]
pub enum PairFault {
    First(Reason),
    Second(Reason),
}

fn first_half(line: &[u8]) -> Option<FirstHalf>
    requires { length line.now ≡ 80 }
    ensures none { IfNone result (IsFalse (first_fields line.now)) }
    ensures some { IfSome result (IsFirstHalf line.now) }
{
    Some(FirstHalf {
        kind: number_in(line, 1)?,
        record_first: number_in(line, 2)?,
        structure: number_in(line, 3)?,
        font: number_in(line, 4)?,
        level: number_in(line, 5)?,
        view: number_in(line, 6)?,
        matrix: number_in(line, 7)?,
        display: number_in(line, 8)?,
        status: status_in(line)?,
    })
}

// The entity type in the second line, of which the first holds this type.
#[inline(always)]
fn kind_again(first: &[u8], kind: i64, line: &[u8]) -> Option<i64>
    requires first { length first.now ≡ 80 }
    requires held { Holds 1 first.now kind }
    requires long { length line.now ≡ 80 }
    ensures { result ≡ column_number (field 1 line.now) }
{
    // In nearly all entries both lines write it alike.
    if word_in(first, 1) == word_in(line, 1) {
        return Some(kind);
    }
    number_in(line, 1)
}

fn second_half(first: &[u8], kind: i64, line: &[u8]) -> Option<SecondHalf>
    requires first { length first.now ≡ 80 }
    requires held { Holds 1 first.now kind }
    requires long { length line.now ≡ 80 }
    ensures none { IfNone result (IsFalse (second_fields line.now)) }
    ensures some { IfSome result (IsSecondHalf line.now) }
{
    Some(SecondHalf {
        kind: kind_again(first, kind, line)?,
        weight: number_in(line, 2)?,
        colour: number_in(line, 3)?,
        record_count: number_in(line, 4)?,
        form: number_in(line, 5)?,
        label: bytes_in(line, 8),
        subscript: number_in(line, 9)?,
    })
}

fn have_one_type(one: &FirstHalf, two: &SecondHalf) -> bool
    ensures { result ≡ int_eq one.now.kind two.now.kind }
{
    one.kind == two.kind
}

// The number behind that of a record's last line.
fn record_end(first: i64, count: i64) -> i64
    requires first { IsTrue (fits_columns first) }
    requires count { IsTrue (fits_columns count) }
    ensures { result ≡ first +ℤ count }
{
    first + count
}

// Whether the record lies among so many parameter lines, where there must be one.
fn lies_within(params: usize, kind: i64, first: i64, count: i64) -> bool
    requires params { params < 2 ^ 62 }
    requires first { IsTrue (fits_columns first) }
    requires count { IsTrue (fits_columns count) }
    ensures { result ≡ has_record params kind first count }
{
    kind == 0 || (first >= 1 && count >= 1 && record_end(first, count) <= params as i64 + 1)
}

fn placed_of(one: FirstHalf, two: SecondHalf) -> Placed
    ensures { result ≡ placed_from one two }
{
    let status = one.status;
    let label = two.label;
    Placed {
        entry: Entry {
            kind: one.kind,
            structure: one.structure,
            font: one.font,
            level: one.level,
            view: one.view,
            matrix: one.matrix,
            display: one.display,
            weight: two.weight,
            colour: two.colour,
            form: two.form,
            subscript: two.subscript,
            status,
            label,
        },
        first: one.record_first,
        count: two.record_count,
    }
}

/// The entry of two lines, whose record lies among so many parameter lines, or what is wrong with them.
pub fn entry_of(first: &[u8], second: &[u8], params: usize) -> Result<Placed, PairFault>
    requires first { length first.now ≡ 80 }
    requires second { length second.now ≡ 80 }
    requires params { params < 2 ^ 62 }
    ensures { AnswersPair params first.now second.now result }
{
    let Some(one) = first_half(first) else {
        return Err(PairFault::First(Reason::Field));
    };
    let Some(two) = second_half(first, one.kind, second) else {
        return Err(PairFault::Second(Reason::Field));
    };
    if !have_one_type(&one, &two) {
        return Err(PairFault::Second(Reason::TypesDiffer));
    }
    if !lies_within(params, one.kind, one.record_first, two.record_count) {
        return Err(PairFault::Second(Reason::Range));
    }
    Ok(placed_of(one, two))
}
