//! Numbers of records.

ghost use Rattle.iges_params.specs.Named.{named};
ghost use Rattle.record_numbers.specs.EqualRecords.{AreFair};
ghost use Rattle.record_numbers.specs.Keys.{AreNumbers, KeepsNumbers, number_by};
ghost use Rattle.record_numbers.specs.Marked.{AreEndless, IsEndlessPart, IsNumberOf, IsNumbering, LeadsOn, NamesEndless, mark_of};
ghost use Rattle.record_numbers.specs.Parts.{said, said_all};
ghost use Rattle.std.specs.List.{AllZip};
ghost use Rattle.std.specs.Prelude.{◌≡◌, ℕ, IfOk, IsSomeAnd, IsTrue, None, OnOk, Some};

use crate::key::{alone_key, key_of};
use crate::keys::{KeyNumbers, number_by_key};
use crate::marks::{Mark, mark_of, set_mark};
use crate::search::order_of;
use crate::told::{Part, told_of};
use iges_base::NoMemory;
use iges_params::File;
use std::alloc::Global;
use std::collections::BTreeMap;

// Marks of entries, and their numbers by their keys.
#[derive(Drop)]
struct Numbering {
    marks: Vec<Mark>,
    keys: KeyNumbers,
}

fn is_unknown(mark: Mark) -> bool
    ensures { IsTrue result → mark ≡ Mark.Unknown }
{
    matches!(mark, Mark::Unknown)
}

// The mark of an entry by its key.
fn mark_by(keys: &mut KeyNumbers, key: Option<Vec<u8>>) -> Result<Mark, NoMemory>
    ensures number { IfOk result (λ mark. (x : ℕ) → mark ≡ Mark.Numbered x → IsSomeAnd key (λ k. number_by keys.new k.items ≡ Some x)) }
    ensures kept { OnOk result (AreNumbers keys.old → KeepsNumbers keys.old keys.new) }
    ensures numbers { OnOk result (AreNumbers keys.old → AreNumbers keys.new) }
{
    match key {
        Some(key) => Ok(Mark::Numbered(number_by_key(keys, key)?)),
        None => Ok(Mark::Endless),
    }
}

// Gives an entry its number, if all that it names has one.
fn number_entry(
    alloc: Global,
    file: &File,
    marks: &mut Vec<Mark>,
    keys: &mut KeyNumbers,
    number: i64,
) -> Result<(), NoMemory>
    ensures { OnOk result (IsNumbering file.now marks.old.items keys.old → IsNumbering file.now marks.new.items keys.new) }
{
    let seen = marks.as_slice();
    if !is_unknown(mark_of(seen, number)) {
        return Ok(());
    }
    let key = key_of(alloc, file, seen, number)?;
    let mark = mark_by(keys, key)?;
    set_mark(marks, number, mark);
    Ok(())
}

fn number_all(
    alloc: Global,
    file: &File,
    marks: &mut Vec<Mark>,
    keys: &mut KeyNumbers,
    order: &[i64],
) -> Result<(), NoMemory>
    ensures { OnOk result (IsNumbering file.now marks.old.items keys.old → IsNumbering file.now marks.new.items keys.new) }
{
    'order: for number in order {
        number_entry(alloc, file, marks, keys, *number)?;
    }
    Ok(())
}

fn is_endless(marks: &[Mark], part: &Part<'_>) -> bool
    ensures { IsTrue result → IsEndlessPart marks.now (said part.now) }
{
    match part {
        Part::Pointer(Some(number)) => matches!(mark_of(marks, *number), Mark::Endless),
        _ => false,
    }
}

fn names_endless(marks: &[Mark], parts: &[Part<'_>]) -> bool
    ensures { IsTrue result → NamesEndless marks.now (said_all parts.now) }
{
    'parts: for part in parts {
        if is_endless(marks, part) {
            return true;
        }
    }
    false
}

fn leads_on(alloc: Global, file: &File, marks: &[Mark], number: i64) -> Result<bool, NoMemory>
    ensures { IfOk result (λ on. IsTrue on → LeadsOn file.now marks.now number) }
{
    match told_of(alloc, file, number)? {
        Some(told) => Ok(names_endless(marks, told.parts.as_slice())),
        None => Ok(false),
    }
}

fn is_settled(alloc: Global, file: &File, marks: &[Mark], number: i64) -> Result<bool, NoMemory>
    ensures { IfOk result (λ settled. IsTrue settled → mark_of marks.now number ≡ Mark.Endless
        → LeadsOn file.now marks.now number) }
{
    match mark_of(marks, number) {
        Mark::Endless => leads_on(alloc, file, marks, number),
        _ => Ok(true),
    }
}

// Whether from each entry without a number pointers lead on to another.
fn are_endless(alloc: Global, file: &File, marks: &[Mark]) -> Result<bool, NoMemory>
    ensures { IfOk result (λ all. IsTrue all → AreEndless file.now marks.now) }
{
    let Ok(count) = u32::try_from(marks.len()) else {
        return Ok(false);
    };
    'marks: for i in 0..count {
        if !is_settled(alloc, file, marks, i64::from(i))? {
            return Ok(false);
        }
    }
    Ok(true)
}

fn names_none(file: &File, number: i64) -> bool
    ensures { IsTrue result → named file.now number ≡ None }
{
    file.entry_no_of(number).is_none()
}

fn number_of(
    alloc: Global,
    file: &File,
    marks: &[Mark],
    keys: &mut KeyNumbers,
    number: i64,
) -> Result<u32, NoMemory>
    ensures number { IfOk result (IsNumberOf file.now marks.now keys.new number) }
    ensures kept { OnOk result (AreNumbers keys.old → KeepsNumbers keys.old keys.new) }
    ensures numbers { OnOk result (AreNumbers keys.old → AreNumbers keys.new) }
{
    match mark_of(marks, number) {
        Mark::Numbered(x) => return Ok(x),
        Mark::Endless => {}
        // The search comes to each entry.
        Mark::Unknown if !names_none(file, number) => return Err(NoMemory),
        Mark::Unknown => {}
    }
    number_by_key(keys, alone_key(alloc, number)?)
}

// The numbers of all that the entries reach.
fn numbering_of(alloc: Global, file: &File, entries: &[i64]) -> Result<Numbering, NoMemory>
    ensures numbering { IfOk result (λ n. IsNumbering file.now n.marks.items n.keys) }
    ensures endless { IfOk result (λ n. AreEndless file.now n.marks.items) }
{
    let order = order_of(alloc, file, entries)?;
    let mut marks = vec![in alloc; Mark::Unknown; 2 * file.entry_count()]?;
    let mut keys = BTreeMap::new(alloc);
    number_all(alloc, file, &mut marks, &mut keys, order.as_slice())?;
    // In that order each that has an end has a number.
    if !are_endless(alloc, file, marks.as_slice())? {
        return Err(NoMemory);
    }
    Ok(Numbering { marks, keys })
}

fn numbers_of(
    alloc: Global,
    file: &File,
    marks: &[Mark],
    keys: &mut KeyNumbers,
    entries: &[i64],
) -> Result<Vec<u32>, NoMemory>
    requires numbering { IsNumbering file.now marks.now keys.old }
    requires endless { AreEndless file.now marks.now }
    ensures { IfOk result (λ numbers. AreFair file.now entries.now numbers.items) }
{
    let mut numbers = Vec::with_capacity(alloc, entries.len())?;
    'entries: for number in entries {
        numbers.push(number_of(alloc, file, marks, keys, *number)?)?;
    }
    Ok(numbers)
}

/// A number for each of these entries, equal for two exactly if their records are equal. Only records that they reach by
/// pointers are looked at. It takes a look-up in a tree for each of them, and memory for their values.
pub fn record_numbers(alloc: Global, file: &File, entries: &[i64]) -> Result<Vec<u32>, NoMemory>
    ensures { IfOk result (λ numbers. AreFair file.now entries.now numbers.items) }
{
    let Numbering { marks, mut keys } = numbering_of(alloc, file, entries)?;
    numbers_of(alloc, file, marks.as_slice(), &mut keys, entries)
}
