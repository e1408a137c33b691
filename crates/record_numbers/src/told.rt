//! What a record says.

ghost use Rattle.entry_references.specs.EntrySets.{is_among};
ghost use Rattle.iges_base.specs.declared.TheConstants.{FILE_LIMIT};
ghost use Rattle.iges_directory.specs.Bounds.{IsBounded};
ghost use Rattle.iges_params.specs.Named.{named};
ghost use Rattle.record_numbers.specs.EqualRecords.{faultless_own, matrix_part, part_at, parts_of, told, told_by};
ghost use Rattle.record_numbers.specs.Parts.{AreMarkedPlaces, is_faultless, part_as, said, said_all, with_mark};
ghost use Rattle.std.specs.List.{enumerate_from};
ghost use Rattle.std.specs.Prelude.{◌≡◌, ◌≢◌, ◌≤◌, ◌<◌, ◌++◌, IfOk, MatchOption, OnOk, Some, None, length, map, take};

use entry_references::{Own, Record, RefFault, mark_at, number_of, record_of, refs, shape_of};
use iges_base::NoMemory;
use iges_directory::Entry;
use iges_fields::{Value, Values};
use iges_params::File;
use std::alloc::Global;
use std::marker::Model;

/// A part of a record.
#[derive(Clone, Copy)]
pub enum Part<'a> {
    /// A pointer to an entry, or to none.
    Pointer(Option<i64>),
    /// A pointer that isn't followed.
    Cut,
    /// Another value.
    Plain(&'a Value),
}

/// What a record says, wherever it stands.
#[derive(Drop)]
pub struct Told<'a> {
    pub kind: i64,
    pub form: i64,
    /// The matrix, and the own values in their order.
    pub parts: Vec<Part<'a>>,
}

impl<'a> Model for Told<'a> {
    ghost use Rattle.record_numbers.specs.EqualRecords.{Told as Said};
    ghost use Rattle.record_numbers.specs.Parts.{said_all};

    ghost Value = { Said };

    ghost view = { λ t. record { kind = t.kind; form = t.form; parts = said_all t.parts.items } };
}

fn unless_memory(fault: RefFault) -> Result<(), NoMemory>
    ensures { OnOk result (fault ≢ RefFault.NoMemory) }
{
    match fault {
        RefFault::NoMemory => Err(NoMemory),
        _ => Ok(()),
    }
}

fn is_faultless(
    alloc: Global,
    file: &File,
    entry: &Entry,
    values: &Values,
) -> Result<bool, NoMemory>
    requires bounded { IsBounded entry.now }
    requires few { length values.now ≤ FILE_LIMIT }
    ensures { IfOk result (λ faultless. faultless ≡ is_faultless file.now (entry.now, values.now)) }
{
    match refs(alloc, file, entry, values) {
        Ok(numbers) => {
            drop(numbers);
            Ok(true)
        }
        Err(fault) => {
            unless_memory(fault)?;
            Ok(false)
        }
    }
}

// The own values of a record of a listed type without a fault.
fn faultless_own(
    alloc: Global,
    file: &File,
    entry: &Entry,
    values: &Values,
) -> Result<Option<Own>, NoMemory>
    requires bounded { IsBounded entry.now }
    requires few { length values.now ≤ FILE_LIMIT }
    ensures { IfOk result (λ own. own ≡ faultless_own file.now (entry.now, values.now)) }
{
    if !is_faultless(alloc, file, entry, values)? {
        return Ok(None);
    }
    match shape_of(alloc, entry, values) {
        Ok(shape) => Ok(Some(shape.own)),
        Err(RefFault::NoMemory) => Err(NoMemory),
        Err(_) => Ok(None),
    }
}

// Marks a place, from 1, where there is one.
fn set_mark(marks: &mut Vec<bool>, place: usize)
    ensures { marks.new.items ≡ with_mark marks.old.items place }
{
    if place > 0 && place <= marks.len() {
        marks[place - 1] = true;
    }
}

// One mark for each of the first `count` places, counted from 1: true where the place is one of `places`.
fn marked_places(alloc: Global, places: &[usize], count: usize) -> Result<Vec<bool>, NoMemory>
    ensures { IfOk result (λ marks. AreMarkedPlaces marks.items places.now count) }
{
    let mut marks = vec![in alloc; false; count]?;
    'places: for place in places {
        set_mark(&mut marks, *place);
    }
    Ok(marks)
}

fn part_of(value: &Value, is_pointer: bool, is_cut: bool) -> Part<'_>
    ensures { said result ≡ part_as is_pointer is_cut value.now }
{
    if is_pointer {
        return Part::Pointer(number_of(value));
    }
    match value {
        Value::Int(_) if is_cut => Part::Cut,
        _ => Part::Plain(value),
    }
}

fn matrix_of(entry: &Entry) -> Part<'_>
    ensures { said result ≡ matrix_part entry.now }
{
    if entry.matrix == 0 {
        return Part::Pointer(None);
    }
    Part::Pointer(Some(entry.matrix))
}

// Puts the own values.
fn push_own<'a>(
    parts: &mut Vec<Part<'a>>,
    own: &Own,
    pointers: &[bool],
    values: &'a Values,
) -> Result<(), NoMemory>
    requires { AreMarkedPlaces pointers.now own.now.pointers own.now.count }
    ensures { OnOk result (said_all parts.new.items ≡ said_all parts.old.items
        ++ map (λ v. part_at own.now v.0 v.1) (enumerate_from 1 (take own.now.count values.now))) }
{
    let count = own.count.min(values.len());
    let cut = own.cut.as_slice();
    'values: for i in 0..count {
        let is_pointer = mark_at(pointers, i);
        let is_cut = cut.contains(&(i + 1));
        parts.push(part_of(values.get(i).unwrap(), is_pointer, is_cut))?;
    }
    Ok(())
}

// The matrix and the own values.
fn parts_of<'a>(
    alloc: Global,
    entry: &'a Entry,
    values: &'a Values,
    own: &Own,
) -> Result<Vec<Part<'a>>, NoMemory>
    ensures { IfOk result (λ parts. said_all parts.items ≡ parts_of (entry.now, values.now) own.now) }
{
    let pointers = marked_places(alloc, own.pointers.as_slice(), own.count)?;
    let mut parts = Vec::new(alloc);
    parts.push(matrix_of(entry))?;
    push_own(&mut parts, own, pointers.as_slice(), values)?;
    Ok(parts)
}

fn told_by<'a>(
    alloc: Global,
    entry: &'a Entry,
    values: &'a Values,
    own: &Own,
) -> Result<Told<'a>, NoMemory>
    ensures { IfOk result (λ said. Some said ≡ told_by (entry.now, values.now) (Some own.now)) }
{
    Ok(Told {
        kind: entry.kind,
        form: entry.form,
        parts: parts_of(alloc, entry, values, own)?,
    })
}

/// The record that a number names; None where it names none.
pub fn record_at(file: &File, number: i64) -> Option<Record<'_>>
    ensures { MatchOption result (named file.now number ≡ None)
        (λ r. (named file.now number ≡ Some (r.entry.now, r.values.now)) × IsBounded r.entry.now × (length r.values.now ≤ FILE_LIMIT)) }
{
    let Some(no) = file.entry_no_of(number) else {
        return None;
    };
    record_of(file, no)
}

/// What the record that a number names says, if it's of a listed type and without a fault.
pub fn told_of(alloc: Global, file: &File, number: i64) -> Result<Option<Told<'_>>, NoMemory>
    ensures { IfOk result (λ said. said ≡ told file.now number) }
{
    let Some(found) = record_at(file, number) else {
        return Ok(None);
    };
    match faultless_own(alloc, file, found.entry, found.values)? {
        Some(own) => Ok(Some(told_by(alloc, found.entry, found.values, &own)?)),
        None => Ok(None),
    }
}
