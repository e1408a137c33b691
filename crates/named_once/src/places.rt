//! Which places of a record stay.

ghost use Rattle.changed_file.specs.Folds.{fold_items};
ghost use Rattle.named_once.specs.Once.{stays, with_place, with_dropped, with_kept};
ghost use Rattle.std.specs.Prelude.{◌≡◌, ◌+◌, IfOk, OnOk, length};

use crate::marks::{any_named, mark, mark_all, was_named};
use crate::numbers::loops_named;
use iges_base::{EntryNo, ItemList, NoMemory};
use iges_params::File;
use std::alloc::Global;

/// A place that is left out: an entity, and the item of its record, from 1.
#[derive(Clone, Copy)]
pub struct Dropped {
    pub entity: EntryNo,
    pub item: u32,
}

/// What is known of the places of a solid.
#[derive(Drop)]
pub struct Seen {
    /// For each entry whether a place has named it.
    pub marks: ItemList<bool>,
    /// For each place of a record so far whether it stays.
    pub stay: ItemList<bool>,
    /// The places that are left out.
    pub dropped: ItemList<Dropped>,
}

/// The places of a record: its entity, and the item that the first of them is.
#[derive(Clone, Copy)]
pub struct Listed {
    pub entity: EntryNo,
    pub first: u32,
}

fn item_after(first: u32, before: usize) -> Result<u32, NoMemory>
    ensures { IfOk result (λ item. item ≡ first + before) }
{
    match u32::try_from((first as usize).saturating_add(before)) {
        Ok(item) => Ok(item),
        Err(_) => Err(NoMemory),
    }
}

// The next place is left out.
fn put_dropped(seen: &mut Seen, file: &File, listed: Listed, number: i64) -> Result<(), NoMemory>
    ensures { OnOk result (seen.new ≡ with_dropped file.now listed seen.old number) }
{
    let item = item_after(listed.first, seen.stay.len())?;
    mark(file, &mut seen.marks, number);
    seen.stay.push(false)?;
    seen.dropped.push(Dropped {
        entity: listed.entity,
        item,
    })
}

// It stays.
fn put_kept(seen: &mut Seen, file: &File, number: i64, loops: &[i64]) -> Result<(), NoMemory>
    ensures { OnOk result (seen.new ≡ with_kept file.now seen.old number loops.now) }
{
    mark(file, &mut seen.marks, number);
    mark_all(file, &mut seen.marks, loops);
    seen.stay.push(true)
}

fn put_place(
    seen: &mut Seen,
    alloc: Global,
    file: &File,
    listed: Listed,
    number: i64,
) -> Result<(), NoMemory>
    ensures { OnOk result (seen.new ≡ with_place file.now listed seen.old number) }
{
    if was_named(file, seen.marks.as_slice(), number) {
        return put_dropped(seen, file, listed, number);
    }
    let loops = loops_named(alloc, file, number)?;
    if any_named(file, seen.marks.as_slice(), loops.as_slice()) {
        return put_dropped(seen, file, listed, number);
    }
    put_kept(seen, file, number, loops.as_slice())
}

/// Goes through the places of a record, which name these numbers.
pub(crate) fn put_places(
    seen: &mut Seen,
    alloc: Global,
    file: &File,
    listed: Listed,
    numbers: &[i64],
) -> Result<(), NoMemory>
    ensures { OnOk result (seen.new
        ≡ fold_items (with_place file.now listed) seen.old numbers.now) }
{
    'places: for i in 0..numbers.len() {
        put_place(seen, alloc, file, listed, numbers[i])?;
    }
    Ok(())
}
