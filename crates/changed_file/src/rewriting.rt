//! The file with new values and new entries.

ghost use Rattle.changed_file.specs.Changed.{kept_record, new_record, rewritten, with_slots};
ghost use Rattle.iges_directory.specs.Bounds.{IsBounded};
ghost use Rattle.iges_params.specs.Contents.{value_count};
ghost use Rattle.std.specs.List.{enumerate_from};
ghost use Rattle.std.specs.Prelude.{◌≡◌, ◌<◌, ◌≤◌, ◌+◌, ◌∷◌, ◌++◌, ℕ, [], None, Some, IfOk, OnOk, drop, flat_map, length, map, option_map, slice_get, slice_index_or, unwrap_or};

use crate::draft::{NewEntry, Slots};
use changed_records::ChangeFault;
use iges_base::{ENTRY_LIMIT, EntryNo, FILE_LIMIT, ItemList, NoMemory};
use iges_directory::Entry;
use iges_fields::Values;
use iges_params::{File, begun, copied_values};
use std::alloc::Global;

/// Puts an entry into a file that has so many values, and gives how many it has then.
pub(crate) fn push_within(
    new: &mut File,
    count: u64,
    entry: Entry,
    values: Values,
) -> Result<u64, ChangeFault>
    requires bounded { IsBounded entry }
    requires counted { count ≡ value_count new.old.entries }
    ensures ok { OnOk result (new.new ≡ record new.old {
      entries = new.old.entries
          ++ (entry, values) ∷ [];
    }) }
    ensures counted { IfOk result (λ n. n ≡ value_count new.new.entries) }
{
    let more = values.len() as u64;
    let all = count.saturating_add(more);
    if all > FILE_LIMIT || new.entry_count() as u64 >= ENTRY_LIMIT {
        return Err(ChangeFault::Unfit);
    }
    if entry.kind == 0 && more > 0 {
        return Err(ChangeFault::Unfit);
    }
    new.push(entry, values)?;
    Ok(all)
}

/// A copy of the values of the i-th entry.
pub(crate) fn values_at(alloc: Global, file: &File, i: usize) -> Result<Values, NoMemory>
    requires { i < length file.now.entries }
    ensures { IfOk result (λ values. option_map (λ r. r.1) (slice_get file.now.entries i)
        ≡ Some values) }
{
    let _count = file.entry_count();
    match file.values(file.entry_no(i)) {
        Some(values) => copied_values(alloc, values),
        None => Ok(Values::new(alloc)),
    }
}

// The new values of the i-th entry, if it has any. They are moved.
fn slot_taken(slots: &mut Slots, i: usize) -> Option<Values>
    ensures slot { result ≡ slice_index_or slots.old i None }
    ensures left { (j : ℕ) → i < j → slice_index_or slots.new j None ≡ slice_index_or slots.old j None }
{
    if i >= slots.len() {
        return None;
    }
    slots.replace(i, None)
}

// The values of the i-th entry: new ones, where there are any.
fn kept_values(alloc: Global, file: &File, slots: &mut Slots, i: usize) -> Result<Values, NoMemory>
    requires { i < length file.now.entries }
    ensures kept { IfOk result (λ values. option_map
        (λ r. unwrap_or (slice_index_or slots.old i None) r.1) (slice_get file.now.entries i)
        ≡ Some values) }
    ensures left { (j : ℕ) → i < j → slice_index_or slots.new j None ≡ slice_index_or slots.old j None }
{
    match slot_taken(slots, i) {
        Some(values) => Ok(values),
        None => values_at(alloc, file, i),
    }
}

fn put_old(
    alloc: Global,
    new: &mut File,
    file: &File,
    slots: &mut Slots,
) -> Result<u64, ChangeFault>
    requires { new.old.entries ≡ [] }
    ensures ok { OnOk result (new.new ≡ record new.old {
      entries = map
          (kept_record slots.old) (enumerate_from 0 file.now.entries);
    }) }
    ensures counted { IfOk result (λ n. n ≡ value_count new.new.entries) }
{
    let mut count = 0;
    'entries: for i in 0..file.entry_count() {
        let entry = *file.entry_at(i).unwrap();
        let values = kept_values(alloc, file, slots, i)?;
        count = push_within(new, count, entry, values)?;
    }
    Ok(count)
}

/// The file in which entries have these values, by their places, where there are any. They are moved. It is refused where the file
/// would have too many values.
#[tactic(auto, unfolding(crate::specs::Changed::with_slots))]
pub fn with_slots(alloc: Global, file: &File, slots: &mut Slots) -> Result<File, ChangeFault>
    ensures { IfOk result (λ new. new ≡ with_slots file.now slots.old) }
{
    let mut new = begun(alloc, file)?;
    put_old(alloc, &mut new, file, slots)?;
    Ok(new)
}

// The i-th new entry, in the place of which one without values is left.
fn added_taken(alloc: Global, added: &mut ItemList<NewEntry>, i: usize) -> NewEntry
    requires { i < length added.old }
    ensures taken { slice_get added.old i ≡ Some result }
    ensures left { drop (i + 1) added.new ≡ drop (i + 1) added.old }
    ensures len { length added.new ≡ length added.old }
{
    let empty = NewEntry {
        like: 0,
        values: Values::new(alloc),
    };
    added.replace(i, empty)
}

fn put_new(new: &mut File, count: u64, file: &File, added: NewEntry) -> Result<u64, ChangeFault>
    requires { count ≡ value_count new.old.entries }
    ensures ok { OnOk result (new.new ≡ record new.old {
      entries = new.old.entries
          ++ new_record file.now added;
    }) }
    ensures counted { IfOk result (λ n. n ≡ value_count new.new.entries) }
{
    let Some(entry) = file.entry(EntryNo(added.like)) else {
        return Err(ChangeFault::Unfit);
    };
    push_within(new, count, *entry, added.values)
}

fn put_added(
    alloc: Global,
    new: &mut File,
    count: u64,
    file: &File,
    added: &mut ItemList<NewEntry>,
) -> Result<(), ChangeFault>
    requires { count ≡ value_count new.old.entries }
    ensures { OnOk result (new.new ≡ record new.old {
      entries = new.old.entries
          ++ flat_map (new_record file.now) added.old;
    }) }
{
    let mut count = count;
    'added: for i in 0..added.len() {
        let entry = added_taken(alloc, added, i);
        count = put_new(new, count, file, entry)?;
    }
    Ok(())
}

/// The file with new values of its entries, by their places, and new entries. Both are moved.
#[tactic(auto, unfolding(crate::specs::Changed::rewritten))]
pub(crate) fn rewritten(
    alloc: Global,
    file: &File,
    slots: &mut Slots,
    added: &mut ItemList<NewEntry>,
) -> Result<File, ChangeFault>
    ensures { IfOk result (λ new. new ≡ rewritten file.now slots.old added.old) }
{
    let mut new = begun(alloc, file)?;
    let count = put_old(alloc, &mut new, file, slots)?;
    put_added(alloc, &mut new, count, file, added)?;
    Ok(new)
}
