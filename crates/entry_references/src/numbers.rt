//! What the numbers in an entry name.

ghost use Rattle.entry_references.specs.Layout.{value_at};
ghost use Rattle.entry_references.specs.Numbers.{AddsFirstOf, matrix_of, colour_of};
ghost use Rattle.entry_references.specs.Refs.{names_entry, is_name, number_of};
ghost use Rattle.iges_directory.specs.Bounds.{IsBounded};
ghost use Rattle.iges_params.specs.Limits.{FitsLimits};
ghost use Rattle.iges_params.specs.Named.{named};
ghost use Rattle.std.specs.List.{list_all};
ghost use Rattle.std.specs.Option.{option_to_list};
ghost use Rattle.std.specs.Prelude.{◌≡◌, ◌+◌, ◌++◌, ◌<◌, ◌^◌, [], None, MatchOption, OnErr, OnOk, drop, filter, filter_map, length, pos, take};

use crate::group::Group;
use crate::own::Own;
use crate::place::{number_in, number_of};
use iges_base::{ItemList, NoMemory};
use iges_directory::Entry;
use iges_fields::Values;
use iges_params::File;

/// Whether an entry has the number.
pub fn names_entry(file: &File, number: i64) -> bool
    ensures { result ≡ names_entry file.now number }
{
    match file.entry_no_of(number) {
        Some(no) => file.entry(no).is_some(),
        None => false,
    }
}

// Whether the number names a name, which is a property of form 15 (IGES 5.3, type 406).
fn is_name(file: &File, number: i64) -> bool
    ensures { result ≡ is_name file.now number }
{
    let Some(no) = file.entry_no_of(number) else {
        return false;
    };
    match file.entry(no) {
        Some(entry) => entry.kind == 406 && entry.form == 15,
        None => false,
    }
}

/// Whether each number names an entry.
pub fn name_entries(file: &File, numbers: &ItemList<i64>) -> bool
    ensures { result ≡ list_all (names_entry file.now) numbers.now }
{
    'numbers: for number in numbers.as_slice() {
        if !names_entry(file, *number) {
            return false;
        }
    }
    true
}

fn push_some(numbers: &mut ItemList<i64>, number: Option<i64>) -> Result<(), NoMemory>
    ensures ok { OnOk result (numbers.new ≡ numbers.old ++ option_to_list number) }
    ensures err { OnErr result (numbers.new ≡ numbers.old) }
{
    match number {
        Some(number) => numbers.push(number),
        None => Ok(()),
    }
}

// Puts the pointers among the own values in place of what is there.
fn put_pointers(numbers: &mut ItemList<i64>, own: &Own, values: &Values) -> Result<(), NoMemory>
    ensures { OnOk result (numbers.new
        ≡ filter_map (λ k. number_of (value_at values.now k)) own.now.pointers) }
{
    numbers.truncate(0);
    'places: for place in own.pointers.as_slice() {
        push_some(numbers, number_in(values, *place))?;
    }
    Ok(())
}

// The transformation matrix of an entry, where there is one.
fn matrix_of(entry: &Entry) -> Option<i64>
    ensures { option_to_list result ≡ matrix_of entry.now }
{
    if entry.matrix == 0 {
        return None;
    }
    Some(entry.matrix)
}

// The entry that gives the colour, where one does: its number is there negated (IGES 5.3, 2.2.4.4.13).
fn colour_of(entry: &Entry) -> Option<i64>
    requires { IsBounded entry.now }
    ensures { option_to_list result ≡ colour_of entry.now }
{
    if entry.colour >= 0 {
        return None;
    }
    Some(-entry.colour)
}

/// Puts the numbers of an entry that are followed in place of what is there: the pointers among its own values, its matrix and
/// its colour.
pub fn put_followed(
    numbers: &mut ItemList<i64>,
    entry: &Entry,
    own: &Own,
    values: &Values,
) -> Result<(), NoMemory>
    requires { IsBounded entry.now }
    ensures { OnOk result (numbers.new
        ≡ filter_map (λ k. number_of (value_at values.now k)) own.now.pointers
        ++ matrix_of entry.now ++ colour_of entry.now) }
{
    put_pointers(numbers, own, values)?;
    push_some(numbers, matrix_of(entry))?;
    push_some(numbers, colour_of(entry))
}

// The number, where it names a name.
fn if_name(file: &File, number: Option<i64>) -> Option<i64>
    ensures { option_to_list result ≡ filter (is_name file.now) (option_to_list number) }
{
    match number {
        Some(number) if is_name(file, number) => Some(number),
        _ => None,
    }
}

/// Puts the pointers of a group that name a name, which is a property of form 15 (IGES 5.3, type 406). Where memory
/// runs out, some of the first of them may have been put, and no more.
pub fn push_names(
    numbers: &mut ItemList<i64>,
    file: &File,
    values: &Values,
    group: Group,
) -> Result<(), NoMemory>
    requires { group.before + group.count < 2 ^ 64 }
    ensures ok { OnOk result (numbers.new ≡ numbers.old
        ++ filter (is_name file.now) (filter_map number_of
        (take group.count (drop group.before values.now)))) }
    ensures err { OnErr result (AddsFirstOf numbers.old
        (filter (is_name file.now) (filter_map number_of
        (take group.count (drop group.before values.now)))) numbers.new) }
{
    let mut i = 0;
    'pointers: while i < group.count {
        let Some(value) = values.get(group.before + i) else {
            return Ok(());
        };
        push_some(numbers, if_name(file, number_of(value)))?;
        i += 1;
    }
    Ok(())
}
