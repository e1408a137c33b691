//! Marks of the entries that numbers name.

ghost use Rattle.changed_file.specs.Emptied.{all_refs, names_number, refs_of};
ghost use Rattle.iges_base.specs.declared.TheConstants.{ENTRY_LIMIT, FILE_LIMIT};
ghost use Rattle.iges_directory.specs.Bounds.{IsBounded};
ghost use Rattle.std.specs.Ordering.{int_eq};
ghost use Rattle.entry_references.specs.Refs.{Record as AnyRecord};
ghost use Rattle.std.specs.Prelude.{◌∷◌, [], Some, flat_map, ◌≡◌, ◌<◌, ◌≤◌, ◌+◌, ◌*◌, ◌||◌, ◌++◌, ℕ, false, IfOk, OnOk, get_or, length, pos, slice_get};

use entry_references::{RefFault, record_of, refs};
use iges_base::NoMemory;
use iges_directory::Entry;
use iges_fields::Values;
use iges_params::File;
use std::alloc::Global;

// Marks the entry that a number names, if there is one.
fn mark(marks: &mut [bool], number: i64)
    requires { length marks.old ≤ ENTRY_LIMIT }
    ensures len { length marks.new ≡ length marks.old }
    ensures marks { (k : ℕ) → k < length marks.old → get_or marks.new k false
        ≡ (get_or marks.old k false || int_eq number (pos (2 * k + 1))) }
{
    let Ok(no) = u32::try_from(number) else {
        return;
    };
    let place = (no / 2) as usize;
    if no % 2 == 1 && place < marks.len() {
        marks[place] = true;
    }
}

/// One mark for each of so many entries: whether one of these numbers names it.
pub(crate) fn marks_of(alloc: Global, numbers: &[i64], count: usize) -> Result<Vec<bool>, NoMemory>
    requires { count ≤ ENTRY_LIMIT }
    ensures len { IfOk result (λ marks. length marks.items ≡ count) }
    ensures marks { IfOk result (λ marks. (k : ℕ) → k < count
        → get_or marks.items k false ≡ names_number numbers.now (2 * k + 1)) }
{
    let mut marks = vec![in alloc; false; count]?;
    'numbers: for i in 0..numbers.len() {
        mark(&mut marks, numbers[i]);
    }
    Ok(marks)
}

fn put_numbers(out: &mut Vec<i64>, numbers: &[i64]) -> Result<(), NoMemory>
    ensures { OnOk result (out.new.items ≡ out.old.items ++ numbers.now) }
{
    out.extend_from_slice(numbers)?;
    Ok(())
}

// Puts what an entry refers to; nothing where it has a fault.
fn put_refs(
    out: &mut Vec<i64>,
    alloc: Global,
    file: &File,
    entry: &Entry,
    values: &Values,
) -> Result<(), NoMemory>
    requires bounded { IsBounded entry.now }
    requires few { length values.now ≤ FILE_LIMIT }
    ensures { OnOk result (out.new.items
        ≡ out.old.items ++ refs_of file.now (entry.now, values.now)) }
{
    match refs(alloc, file, entry, values) {
        Ok(numbers) => put_numbers(out, numbers.as_slice()),
        Err(RefFault::Unlisted) => Ok(()),
        Err(RefFault::Layout) => Ok(()),
        Err(RefFault::Dangling) => Ok(()),
        Err(RefFault::NoMemory) => Err(NoMemory),
    }
}

// The same of the i-th entry.
fn put_refs_at(out: &mut Vec<i64>, alloc: Global, file: &File, i: usize) -> Result<(), NoMemory>
    requires { i < length file.now.entries }
    ensures { OnOk result ((r : AnyRecord) → slice_get file.now.entries i ≡ Some r
        → out.new.items ≡ out.old.items ++ refs_of file.now r) }
{
    let _count = file.entry_count();
    match record_of(file, file.entry_no(i)) {
        Some(record) => put_refs(out, alloc, file, record.entry, record.values),
        None => {
            let entry = file.entry_at(i).unwrap();
            let none = Values::new(alloc);
            put_refs(out, alloc, file, entry, &none)
        }
    }
}

/// What all entries of a file refer to.
pub(crate) fn all_refs(alloc: Global, file: &File) -> Result<Vec<i64>, NoMemory>
    ensures { IfOk result (λ numbers. numbers.items ≡ all_refs file.now) }
{
    let mut out = Vec::new(alloc);
    'entries: for i in 0..file.entry_count() {
        put_refs_at(&mut out, alloc, file, i)?;
    }
    Ok(out)
}
