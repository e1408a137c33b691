//! The numbers in a record.

ghost use Rattle.brep_lists.specs.Record.{count_at as counted};
ghost use Rattle.iges_base.specs.declared.TheConstants.{FILE_LIMIT};
ghost use Rattle.named_once.specs.Told.{count_within, loops_named, numbers_from, numbers_told};
ghost use Rattle.std.specs.Prelude.{◌≡◌, ◌≤◌, ◌+◌, IfOk, length};

use brep_lists::{count_at, int_at};
use entry_references::record_of;
use iges_base::{ItemList, NoMemory};
use iges_fields::Values;
use iges_params::File;
use std::alloc::Global;

// So many numbers of a record, each so many places behind the one before.
fn numbers_from(
    alloc: Global,
    values: &Values,
    at: usize,
    step: usize,
    count: usize,
) -> Result<ItemList<i64>, NoMemory>
    requires few { count ≤ FILE_LIMIT }
    requires near { at ≤ 3 }
    requires short { step ≤ 2 }
    ensures { IfOk result (λ numbers. numbers ≡ numbers_from values.now at step count) }
{
    let mut numbers = ItemList::with_room(alloc, count)?;
    let mut at = at;
    let mut left = count;
    'numbers: while left > 0 {
        numbers.push(int_at(values, at))?;
        at += step;
        left -= 1;
    }
    Ok(numbers)
}

// The count at a place of a record, but no more than the record has values.
fn count_within(values: &Values, place: usize) -> usize
    ensures is { result ≡ count_within values.now place }
    ensures few { result ≤ length values.now }
{
    count_at(values, place).min(values.len())
}

/// What the pairs of a record name, behind their count at this place.
pub(crate) fn numbers_told(
    alloc: Global,
    values: &Values,
    place: usize,
) -> Result<ItemList<i64>, NoMemory>
    requires few { length values.now ≤ FILE_LIMIT }
    requires near { place ≤ 2 }
    ensures { IfOk result (λ numbers. numbers ≡ numbers_told values.now place) }
{
    numbers_from(alloc, values, place + 1, 2, count_within(values, place))
}

/// The loops of the face that a number names; none where it names no face.
pub(crate) fn loops_named(
    alloc: Global,
    file: &File,
    number: i64,
) -> Result<ItemList<i64>, NoMemory>
    ensures { IfOk result (λ loops. loops ≡ loops_named file.now number) }
{
    let Some(no) = file.entry_no_of(number) else {
        return Ok(ItemList::new(alloc));
    };
    let Some(record) = record_of(file, no) else {
        return Ok(ItemList::new(alloc));
    };
    if record.entry.kind != 510 {
        return Ok(ItemList::new(alloc));
    }
    numbers_from(alloc, record.values, 3, 1, count_within(record.values, 1))
}
