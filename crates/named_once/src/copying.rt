//! The values of a record without the places that are left out.

ghost use Rattle.changed_file.specs.Folds.{fold_items, fold_pairs};
ghost use Rattle.named_once.specs.Once.{kept_count, kept_numbers, once_values, with_kept_number, with_one, with_pair};
ghost use Rattle.std.specs.Prelude.{◌≡◌, ◌+◌, [], IfOk, OnOk, length};

use changed_records::push_number;
use iges_base::{ItemList, NoMemory};
use iges_fields::Values;
use iges_params::push_copies;
use std::alloc::Global;

/// Values that are copied from a record, and the place of the next ones.
#[derive(Drop)]
pub struct Copying {
    pub at: usize,
    pub list: Values,
}

fn one_more(count: u32) -> Result<u32, NoMemory>
    ensures { IfOk result (λ more. more ≡ count + 1) }
{
    match count.checked_add(1) {
        Some(more) => Ok(more),
        None => Err(NoMemory),
    }
}

/// How many places stay.
pub(crate) fn kept_count(stay: &[bool]) -> Result<u32, NoMemory>
    ensures { IfOk result (λ count. count ≡ kept_count stay.now) }
{
    let mut count = 0;
    'places: for i in 0..stay.len() {
        if stay[i] {
            count = one_more(count)?;
        }
    }
    Ok(count)
}

fn put_number(kept: &mut ItemList<i64>, number: i64, stays: bool) -> Result<(), NoMemory>
    ensures { OnOk result (kept.new ≡ with_kept_number kept.old number stays) }
{
    if stays {
        return kept.push(number);
    }
    Ok(())
}

/// What the places that stay name.
pub(crate) fn kept_numbers(
    alloc: Global,
    numbers: &[i64],
    stay: &[bool],
) -> Result<ItemList<i64>, NoMemory>
    ensures { IfOk result (λ kept. kept ≡ kept_numbers numbers.now stay.now) }
{
    // There are as many.
    if numbers.len() != stay.len() {
        return Err(NoMemory);
    }
    let mut kept = ItemList::new(alloc);
    'places: for i in 0..numbers.len() {
        put_number(&mut kept, numbers[i], stay[i])?;
    }
    Ok(kept)
}

// The place so many places on.
fn place_after(at: usize, count: usize) -> Result<usize, NoMemory>
    ensures { IfOk result (λ next. next ≡ at + count) }
{
    match at.checked_add(count) {
        Some(next) => Ok(next),
        None => Err(NoMemory),
    }
}

fn put_pair(
    copying: &mut Copying,
    alloc: Global,
    values: &Values,
    stays: bool,
) -> Result<(), NoMemory>
    ensures { OnOk result (copying.new ≡ with_pair values.now copying.old stays) }
{
    if stays {
        push_copies(&mut copying.list, alloc, values, copying.at, 2)?;
    }
    copying.at = place_after(copying.at, 2)?;
    Ok(())
}

fn put_pairs(
    copying: &mut Copying,
    alloc: Global,
    values: &Values,
    stay: &[bool],
) -> Result<(), NoMemory>
    ensures { OnOk result (copying.new ≡ fold_items (with_pair values.now) copying.old stay.now) }
{
    'places: for i in 0..stay.len() {
        put_pair(copying, alloc, values, stay[i])?;
    }
    Ok(())
}

/// The values of a record with the pairs that stay, behind their count at this place.
pub(crate) fn once_values(
    alloc: Global,
    values: &Values,
    place: usize,
    stay: &[bool],
) -> Result<Values, NoMemory>
    ensures { IfOk result (λ list. list ≡ once_values values.now place stay.now) }
{
    let mut list = Values::with_room(alloc, values.len())?;
    push_copies(&mut list, alloc, values, 0, place)?;
    push_number(&mut list, kept_count(stay)?)?;
    let mut copying = Copying {
        at: place_after(place, 1)?,
        list,
    };
    put_pairs(&mut copying, alloc, values, stay)?;
    push_copies(&mut copying.list, alloc, values, copying.at, values.len())?;
    Ok(copying.list)
}
