//! The values that a kept entry has.

ghost use Rattle.entry_references.specs.Refs.{is_name, number_of};
ghost use Rattle.iges_fields.specs.declared.value.Value.{Value as OneValue};
ghost use Rattle.iges_base.specs.declared.TheConstants.{FILE_LIMIT};
ghost use Rattle.solid_extract.specs.Extracted.{new_value, renamed};
ghost use Rattle.entry_references.specs.Layout.{Own as OwnValues};
ghost use Rattle.solid_extract.specs.NewValues.{AreRenewed, is_open, names_behind, new_numbers, value_as, with_cut, with_mark, with_pointer};
ghost use Rattle.std.specs.List.{enumerate_from};
ghost use Rattle.std.specs.Prelude.{◌≡◌, ◌+◌, ◌∷◌, ◌++◌, ◌<◌, ◌≤◌, ◌^◌, ℕ, List, [], IfOk, IsTrue, MatchOption, OnOk, Some, drop, filter, filter_map, if◌then◌else◌, length, map, pos, set, slice_get, take};

use crate::renaming::Renaming;
use entry_references::{Group, Own, Shape, push_names};
use iges_base::{ItemList, NoMemory};
use iges_fields::{Value, Values};
use iges_params::File;
use std::alloc::Global;
use std::mem;

// Marks a place, from 1, where the values have it.
#[inline(always)]
fn set_mark(marks: &mut Vec<bool>, place: usize)
    ensures { marks.new.items ≡ with_mark marks.old.items place }
{
    if place > 0 && place <= marks.len() {
        marks[place - 1] = true;
    }
}

// Whether the values have a place, from 1, and it isn't marked.
#[inline(always)]
fn is_open(marks: &[bool], place: usize) -> bool
    ensures is { result ≡ is_open marks.now place }
    ensures within { IsTrue result → (0 < place) × (place ≤ length marks.now) }
{
    place > 0 && place <= marks.len() && !marks[place - 1]
}

// An integer as it is kept: a pointer is renamed, and one that isn't followed is cut.
fn new_integer(renaming: &Renaming, n: i64, is_pointer: bool, is_cut: bool) -> i64
    ensures { result ≡ if is_pointer then renamed renaming.now n
        else (if is_cut then pos 0 else n) }
{
    if is_pointer {
        renaming.renamed(n)
    } else if is_cut {
        0
    } else {
        n
    }
}

// The integer that takes the value's place; None where the value stays.
fn integer_for(renaming: &Renaming, value: &Value, is_pointer: bool, is_cut: bool) -> Option<i64>
    ensures { MatchOption result (value_as renaming.now is_pointer is_cut value.now ≡ value.now)
        (λ n. value_as renaming.now is_pointer is_cut value.now ≡ OneValue.Int n) }
{
    match value {
        Value::Int(n) => Some(new_integer(renaming, *n, is_pointer, is_cut)),
        _ => None,
    }
}

// Puts in place of the i-th value, i from 0, what it is as it is kept.
#[inline(always)]
fn renew(values: &mut Values, renaming: &Renaming, i: usize, is_pointer: bool, is_cut: bool)
    requires { i < length values.old }
    ensures { (v : OneValue) → slice_get values.old i ≡ Some v
        → values.new ≡ set values.old i (value_as renaming.now is_pointer is_cut v) }
{
    let value = values.get(i).unwrap();
    if let Some(number) = integer_for(renaming, value, is_pointer, is_cut) {
        // The old value is an integer too, which has no memory to give back.
        mem::forget(values.replace(i, Value::Int(number)));
    }
}

// Renames the pointer in a place, from 1, unless it is marked, and marks it.
#[inline(always)]
fn rename_in(values: &mut Values, renaming: &Renaming, marks: &mut Vec<bool>, place: usize)
    requires { length marks.old.items ≡ length values.old }
    ensures { (own : OwnValues) (olds : List OneValue) → own.cut ≡ []
        → AreRenewed renaming.now own olds marks.old.items values.old
        → AreRenewed renaming.now (with_pointer own place) olds marks.new.items values.new }
{
    let open = is_open(marks.as_slice(), place);
    set_mark(marks, place);
    if !open {
        return;
    }
    renew(values, renaming, place - 1, true, false);
}

// Cuts the pointer in a place, from 1, unless it is marked.
fn cut_in(values: &mut Values, renaming: &Renaming, marks: &[bool], place: usize)
    requires { length marks.now ≡ length values.old }
    ensures { (own : OwnValues) (olds : List OneValue)
        → AreRenewed renaming.now own olds marks.now values.old
        → AreRenewed renaming.now (with_cut own place) olds marks.now values.new }
{
    if !is_open(marks, place) {
        return;
    }
    renew(values, renaming, place - 1, false, true);
}

// Renames the pointers in these places, from 1, and marks them.
fn rename_places(
    values: &mut Values,
    renaming: &Renaming,
    places: &[usize],
    marks: &mut Vec<bool>,
) -> Result<(), NoMemory>
    ensures { OnOk result ((count : ℕ) → AreRenewed renaming.now
        (record { count = count; pointers = places.now; cut = [] })
        values.old marks.new.items values.new) }
{
    marks.clear();
    marks.resize(values.len(), false)?;
    'places: for place in places {
        rename_in(values, renaming, marks, *place);
    }
    Ok(())
}

// Puts in place of each of the own values what it is as it is kept. Only those in places of pointers change. `marks` is a
// scratch buffer.
fn renew_all(
    values: &mut Values,
    renaming: &Renaming,
    own: &Own,
    marks: &mut Vec<bool>,
) -> Result<(), NoMemory>
    ensures { OnOk result (values.new ≡ map (λ v. new_value renaming.now own.now v.0 v.1)
        (enumerate_from 1 values.old)) }
{
    let pointers = own.pointers.as_slice();
    let cut = own.cut.as_slice();
    rename_places(values, renaming, pointers, marks)?;
    let pointed = marks.as_slice();
    'cut: for place in cut {
        cut_in(values, renaming, pointed, *place);
    }
    Ok(())
}

// Whether all own values stay as they are.
fn is_plain(own: &Own) -> bool
    ensures { IsTrue result → (own.now.pointers ≡ []) × (own.now.cut ≡ []) }
{
    own.pointers.as_slice().is_empty() && own.cut.as_slice().is_empty()
}

// Keeps the own values alone, each as it is kept. `marks` is a scratch buffer.
fn renew_own(
    values: &mut Values,
    renaming: &Renaming,
    own: &Own,
    marks: &mut Vec<bool>,
) -> Result<(), NoMemory>
    ensures { OnOk result (values.new ≡ map (λ v. new_value renaming.now own.now v.0 v.1)
        (enumerate_from 1 (take own.now.count values.old))) }
{
    values.truncate(own.count);
    if is_plain(own) {
        return Ok(());
    }
    renew_all(values, renaming, own, marks)
}

fn push_renamed(
    list: &mut Values,
    renaming: &Renaming,
    numbers: &ItemList<i64>,
) -> Result<(), NoMemory>
    ensures { OnOk result (list.new ≡ list.old ++ new_numbers renaming.now numbers.now) }
{
    'numbers: for number in numbers.as_slice() {
        list.push(Value::Int(renaming.renamed(*number)))?;
    }
    Ok(())
}

// Puts a group of none and one of the names, where there are any.
fn push_groups(
    list: &mut Values,
    renaming: &Renaming,
    names: &ItemList<i64>,
) -> Result<(), NoMemory>
    requires { length names.now ≤ FILE_LIMIT }
    ensures { OnOk result (list.new ≡ list.old
        ++ names_behind (new_numbers renaming.now names.now)) }
{
    let count = names.len();
    if count == 0 {
        return Ok(());
    }
    list.push(Value::Int(0))?;
    list.push(Value::Int(count as i64))?;
    push_renamed(list, renaming, names)
}

// The pointers of a group that name a property of form 15, in order.
fn names_in(
    alloc: Global,
    file: &File,
    values: &Values,
    group: Group,
) -> Result<ItemList<i64>, NoMemory>
    requires { group.before + group.count < 2 ^ 32 }
    ensures is { IfOk result (λ names. names
        ≡ filter (is_name file.now) (filter_map number_of
        (take group.count (drop group.before values.now)))) }
{
    let mut names = ItemList::new(alloc);
    push_names(&mut names, file, values, group)?;
    Ok(names)
}

/// The values that a record has where it is kept: its own values, and after them the names, where there are any.
/// They take the place of those that it had, in the same memory. `marks` is a scratch buffer.
pub fn new_values(
    alloc: Global,
    file: &File,
    renaming: &Renaming,
    mut values: Values,
    shape: &Shape,
    marks: &mut Vec<bool>,
) -> Result<Values, NoMemory>
    requires few { length values ≤ FILE_LIMIT }
    requires small { shape.now.names.before + shape.now.names.count < 2 ^ 32 }
    ensures { IfOk result (λ list. list ≡ map (λ v. new_value renaming.now shape.now.own v.0 v.1) (enumerate_from 1 (take shape.now.own.count values))
        ++ names_behind (new_numbers renaming.now (filter (is_name file.now) (filter_map number_of (take shape.now.names.count (drop shape.now.names.before values)))))) }
{
    let names = names_in(alloc, file, &values, shape.names)?;
    renew_own(&mut values, renaming, &shape.own, marks)?;
    push_groups(&mut values, renaming, &names)?;
    Ok(values)
}
