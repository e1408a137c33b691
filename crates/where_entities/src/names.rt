//! The names of an entity.

ghost use Rattle.iges_base.specs.declared.TheConstants.{FILE_LIMIT};
ghost use Rattle.iges_params.specs.Named.{values_of};
ghost use Rattle.std.specs.Prelude.{◌≡◌, ◌≤◌, ◌++◌, ◌∷◌, [], false, IfOk, MatchOption, OnOk, filter, flat_map, length, option_copied, slice_get};
ghost use Rattle.entry_references.specs.Refs.{Record as FullRecord, has_layout};
ghost use Rattle.entry_references.specs.Shapes.{IsShapeFault};
ghost use Rattle.where_entities.specs.NamesGroups.{IsNamesGroup};
ghost use Rattle.where_entities.specs.Facts.{entity_names, has_text, is_of_solids, is_text, limited_names, name_fact, name_facts, name_line};

use brep_lists::EntityKind;
use entry_references::{Group, RefFault, push_names, shape_of};
use iges_base::{ItemList, NoMemory, Out};
use iges_directory::Entry;
use iges_fields::{Value, Values};
use iges_params::File;
use std::alloc::Global;
use where_text::{Listing, put_more_facts, put_text, shown_members};

// Whether the type is one of which a solid is made (IGES 5.3, 4.49 and 4.145 to 4.149).
fn is_of_solids(kind: i64) -> bool
    ensures { result ≡ is_of_solids kind }
{
    EntityKind::of_type(kind).is_some()
}

// No group where the record doesn't fit its type.
fn without_group(fault: RefFault) -> Result<Option<Group>, NoMemory>
    ensures { (r : FullRecord) → IsShapeFault r fault
        → IfOk result (λ group. MatchOption group (has_layout r ≡ false) (IsNamesGroup r)) }
{
    match fault {
        RefFault::NoMemory => Err(NoMemory),
        RefFault::Unlisted => Ok(None),
        RefFault::Layout => Ok(None),
        RefFault::Dangling => Ok(None),
    }
}

// The second group after the own values of a record that fits its type.
fn names_group(alloc: Global, entry: &Entry, values: &Values) -> Result<Option<Group>, NoMemory>
    requires { length values.now ≤ FILE_LIMIT }
    ensures { IfOk result (λ group. MatchOption group (has_layout (entry.now, values.now)
        ≡ false) (IsNamesGroup (entry.now, values.now))) }
{
    match shape_of(alloc, entry, values) {
        Ok(shape) => Ok(Some(shape.names)),
        Err(fault) => without_group(fault),
    }
}

// The names in the second group after the own values of a record.
fn entity_names(
    alloc: Global,
    file: &File,
    entry: &Entry,
    values: &Values,
) -> Result<ItemList<i64>, NoMemory>
    requires { length values.now ≤ FILE_LIMIT }
    ensures { IfOk result (λ names. names ≡ entity_names file.now (entry.now, values.now)) }
{
    let mut names = ItemList::new(alloc);
    if !is_of_solids(entry.kind) {
        return Ok(names);
    }
    let Some(group) = names_group(alloc, entry, values)? else {
        return Ok(names);
    };
    push_names(&mut names, file, values, group)?;
    Ok(names)
}

#[tactic(auto, unfolding(crate::specs::Facts::name_line))]
fn put_line(out: &mut Out, value: Option<&Value>) -> Result<(), NoMemory>
    ensures { OnOk result (out.new ≡ out.old ++ name_line (option_copied value.entry)) }
{
    match value {
        Some(Value::Text(text)) => {
            out.put(b"  name ")?;
            put_text(out, text.as_slice())?;
            out.put(b"\n")
        }
        _ => Ok(()),
    }
}

// The second value of the record that a number names.
fn name_value(file: &File, number: i64) -> Option<&Value>
    ensures { option_copied result ≡ slice_get (values_of file.now number) 1 }
{
    let no = file.entry_no_of(number)?;
    file.values(no)?.get(1)
}

fn put_name(out: &mut Out, file: &File, number: i64) -> Result<(), NoMemory>
    ensures { OnOk result (out.new ≡ out.old ++ name_fact file.now number) }
{
    put_line(out, name_value(file, number))
}

fn is_text(value: Option<&Value>) -> bool
    ensures { result ≡ is_text (option_copied value.entry) }
{
    match value {
        Some(Value::Text(_)) => true,
        _ => false,
    }
}

fn push_if(names: &mut ItemList<i64>, file: &File, name: i64) -> Result<(), NoMemory>
    ensures { OnOk result (names.new ≡ names.old ++ filter (has_text file.now) (name ∷ [])) }
{
    if is_text(name_value(file, name)) {
        return names.push(name);
    }
    Ok(())
}

// Of these names those with a text.
fn with_text(alloc: Global, file: &File, names: &ItemList<i64>) -> Result<ItemList<i64>, NoMemory>
    ensures { IfOk result (λ told. told ≡ filter (has_text file.now) names.now) }
{
    let mut told = ItemList::new(alloc);
    'names: for name in names.as_slice() {
        push_if(&mut told, file, *name)?;
    }
    Ok(told)
}

fn put_each(out: &mut Out, file: &File, names: &[i64]) -> Result<(), NoMemory>
    ensures { OnOk result (out.new ≡ out.old ++ flat_map (name_fact file.now) names.now) }
{
    'names: for name in names {
        put_name(out, file, *name)?;
    }
    Ok(())
}

#[tactic(auto, unfolding(crate::specs::Facts::limited_names))]
fn put_limited(out: &mut Out, file: &File, names: &[i64]) -> Result<(), NoMemory>
    ensures { OnOk result (out.new ≡ out.old ++ limited_names file.now names.now) }
{
    let shown = shown_members(Listing::Few, names);
    put_each(out, file, shown)?;
    put_more_facts(out, names.len() - shown.len())
}

/// Appends a fact for each name of an entity of which a solid is made: each property of form 15 in the second group after
/// its own values (IGES 5.3, 2.2.4.5.2 and type 406), the first 20, and how many more there are. There are none where the
/// record doesn't fit its type.
pub fn put_names(
    alloc: Global,
    out: &mut Out,
    file: &File,
    entry: &Entry,
    values: &Values,
) -> Result<(), NoMemory>
    requires { length values.now ≤ FILE_LIMIT }
    ensures { OnOk result (out.new ≡ out.old
        ++ name_facts file.now (entity_names file.now (entry.now, values.now))) }
{
    let names = entity_names(alloc, file, entry, values)?;
    let told = with_text(alloc, file, &names)?;
    put_limited(out, file, told.as_slice())
}
