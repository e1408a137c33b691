//! Entries that nothing points to any more.

ghost use Rattle.changed_file.specs.Emptied.{AreMarksOf, emptied, emptied_record, of_no_type, unless_gone};
ghost use Rattle.entry_references.specs.Refs.{Record as AnyRecord};
ghost use Rattle.iges_directory.specs.Bounds.{IsBounded};
ghost use Rattle.iges_params.specs.Contents.{value_count};
ghost use Rattle.std.specs.List.{enumerate_from};
ghost use Rattle.std.specs.Prelude.{◌≡◌, ◌<◌, ◌∷◌, ◌++◌, ◌&&◌, ℤ, List, [], Some, IfOk, OnOk, false, get_or, length, map, not, set, slice_get};

use crate::marking::{all_refs, marks_of};
use crate::rewriting::push_within;
use changed_records::ChangeFault;
use iges_directory::Entry;
use iges_fields::Values;
use iges_params::{File, begun};
use std::alloc::Global;

fn of_no_type(entry: Entry) -> Entry
    requires { IsBounded entry }
    ensures is { result ≡ of_no_type entry }
    ensures bounded { IsBounded result }
{
    Entry {
        kind: 0,
        form: 0,
        ..entry
    }
}

// The fields and the values of the i-th entry, which has no values from then on.
fn taken(alloc: Global, file: &mut File, i: usize) -> (Entry, Values)
    requires { i < length file.old.entries }
    ensures taken { slice_get file.old.entries i ≡ Some (result.0, result.1) }
    ensures bounded { IsBounded result.0 }
    ensures left { file.new ≡ record file.old { entries = set file.old.entries i (result.0, []) } }
{
    let entry = *file.entry_at(i).unwrap();
    let values = file.take_values(alloc, i);
    (entry, values)
}

// Puts an entry with its values, or without them, if it is gone.
fn put_entry(
    alloc: Global,
    new: &mut File,
    count: u64,
    whole: (Entry, Values),
    gone: bool,
) -> Result<u64, ChangeFault>
    requires bounded { IsBounded whole.0 }
    requires counted { count ≡ value_count new.old.entries }
    ensures ok { OnOk result (new.new ≡ record new.old {
      entries = new.old.entries ++ unless_gone gone (whole.0, whole.1) ∷ [];
    }) }
    ensures counted { IfOk result (λ n. n ≡ value_count new.new.entries) }
{
    let (entry, values) = whole;
    if gone {
        return push_within(new, count, of_no_type(entry), Values::new(alloc));
    }
    push_within(new, count, entry, values)
}

fn is_marked(marks: &[bool], i: usize) -> bool
    ensures { result ≡ get_or marks.now i false }
{
    i < marks.len() && marks[i]
}

// Whether the i-th entry is one of those that go, and none points to it.
fn is_gone(gone: &[bool], used: &[bool], i: usize) -> bool
    ensures { result ≡ (get_or gone.now i false && not (get_or used.now i false)) }
{
    is_marked(gone, i) && !is_marked(used, i)
}

// Puts all entries. Their values are moved.
fn put_entries(
    alloc: Global,
    new: &mut File,
    file: &mut File,
    gone: &[bool],
    used: &[bool],
) -> Result<(), ChangeFault>
    requires { new.old.entries ≡ [] }
    ensures { OnOk result ((ns us : List ℤ) → AreMarksOf gone.now ns (length file.old.entries)
        → AreMarksOf used.now us (length file.old.entries) → new.new ≡ record new.old { entries = map (emptied_record ns us) (enumerate_from 0 file.old.entries) }) }
{
    let mut count = 0;
    'entries: for i in 0..file.entry_count() {
        let gone_now = is_gone(gone, used, i);
        let whole = taken(alloc, file, i);
        count = put_entry(alloc, new, count, whole, gone_now)?;
    }
    Ok(())
}

// Of some of these numbers.
fn emptied_some(alloc: Global, file: &mut File, numbers: &[i64]) -> Result<File, ChangeFault>
    ensures { IfOk result (λ new. new ≡ emptied numbers.now file.old) }
{
    let count = file.entry_count();
    let refs = all_refs(alloc, file)?;
    let used = marks_of(alloc, refs.as_slice(), count)?;
    let gone = marks_of(alloc, numbers, count)?;
    let mut new = begun(alloc, file)?;
    put_entries(alloc, &mut new, file, gone.as_slice(), used.as_slice())?;
    Ok(new)
}

/// The file in which those of these entries to which no entry points are of type 0, without values. The values of all others stay
/// in their memory.
pub(crate) fn emptied(alloc: Global, mut file: File, numbers: &[i64]) -> Result<File, ChangeFault>
    ensures { IfOk result (λ new. new ≡ emptied numbers.now file) }
{
    if numbers.is_empty() {
        return Ok(file);
    }
    emptied_some(alloc, &mut file, numbers)
}
