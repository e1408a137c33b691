//! How the values of a record are laid out, and the numbers that its entry refers to.

ghost use Rattle.entry_references.specs.Answered.{GivesRefs, TellsFault};
ghost use Rattle.entry_references.specs.Refs.{refs};
ghost use Rattle.entry_references.specs.Shapes.{HasShape, IsShapeFault};
ghost use Rattle.iges_directory.specs.Bounds.{IsBounded};
ghost use Rattle.iges_base.specs.declared.TheConstants.{FILE_LIMIT};
ghost use Rattle.std.specs.Prelude.{◌≡◌, ◌≤◌, [], IfErr, IfOk, Ok, OnOk, length};

use crate::fault::RefFault;
use crate::group::{Group, second_group};
use crate::listed::{own_of, type_of};
use crate::numbers::{name_entries, push_names, put_followed};
use crate::own::Own;
use iges_base::ItemList;
use iges_directory::Entry;
use iges_fields::Values;
use iges_params::File;
use std::alloc::Global;
use std::mem;

/// How the values of a record are laid out.
#[derive(Drop)]
pub struct Shape {
    /// The own values.
    pub own: Own,
    /// The second of the groups after them, in which names are.
    pub names: Group,
}

/// Lists whose room serves for one entry after the other.
#[derive(Drop)]
pub struct RefScratch {
    /// For the places of a record's pointers.
    pub places: ItemList<usize>,
    /// The numbers that an entry refers to.
    pub numbers: ItemList<i64>,
}

impl RefScratch {
    /// Lists that have no room yet.
    pub fn new(alloc: Global) -> RefScratch {
        RefScratch {
            places: ItemList::new(alloc),
            numbers: ItemList::new(alloc),
        }
    }
}

/// The same as `shape_of`; the room of a list serves for the places, until `Own::into_spare` gives it back.
pub fn shape_with(
    places: &mut ItemList<usize>,
    alloc: Global,
    entry: &Entry,
    values: &Values,
) -> Result<Shape, RefFault>
    requires { length values.now ≤ FILE_LIMIT }
    ensures ok { IfOk result (λ shape. HasShape (entry.now, values.now) shape.own shape.names) }
    ensures err { IfErr result (IsShapeFault (entry.now, values.now)) }
{
    let Some(listed) = type_of(entry) else {
        return Err(RefFault::Unlisted);
    };
    let mut spare = mem::replace(places, ItemList::new(alloc));
    spare.truncate(0);
    let Some(own) = own_of(alloc, spare, listed, values)? else {
        return Err(RefFault::Layout);
    };
    match second_group(&own, values) {
        Some(names) => Ok(Shape { own, names }),
        None => {
            drop(own);
            Err(RefFault::Layout)
        }
    }
}

/// How the values of a record are laid out, or the first of the faults that they have.
pub fn shape_of(alloc: Global, entry: &Entry, values: &Values) -> Result<Shape, RefFault>
    requires { length values.now ≤ FILE_LIMIT }
    ensures ok { IfOk result (λ shape. HasShape (entry.now, values.now) shape.own shape.names) }
    ensures err { IfErr result (IsShapeFault (entry.now, values.now)) }
{
    let mut places = ItemList::new(alloc);
    shape_with(&mut places, alloc, entry, values)
}

// Puts the numbers that an entry refers to, whose values are laid out so, in place of what is there.
fn put_numbers(
    numbers: &mut ItemList<i64>,
    file: &File,
    entry: &Entry,
    values: &Values,
    shape: &Shape,
) -> Result<(), RefFault>
    requires bounded { IsBounded entry.now }
    requires shape { HasShape (entry.now, values.now) shape.now.own shape.now.names }
    ensures ok { OnOk result (refs file.now (entry.now, values.now) ≡ Ok numbers.new) }
    ensures err { IfErr result (λ fault. TellsFault fault (refs file.now (entry.now, values.now))) }
{
    put_followed(numbers, entry, &shape.own, values)?;
    if !name_entries(file, numbers) {
        return Err(RefFault::Dangling);
    }
    push_names(numbers, file, values, shape.names)?;
    Ok(())
}

/// Puts the numbers that an entry refers to into the scratch list of them, as its values and fields list them, or gives the first
/// of its faults.
pub fn put_refs(
    scratch: &mut RefScratch,
    alloc: Global,
    file: &File,
    entry: &Entry,
    values: &Values,
) -> Result<(), RefFault>
    requires bounded { IsBounded entry.now }
    requires few { length values.now ≤ FILE_LIMIT }
    ensures ok { OnOk result (refs file.now (entry.now, values.now) ≡ Ok scratch.new.numbers) }
    ensures err { IfErr result (λ fault. TellsFault fault (refs file.now (entry.now, values.now))) }
{
    let shape = shape_with(&mut scratch.places, alloc, entry, values)?;
    let put = put_numbers(&mut scratch.numbers, file, entry, values, &shape);
    scratch.places = shape.own.into_spare();
    put
}

/// The numbers that an entry refers to, as its values and fields list them, or the first of its faults.
pub fn refs(
    alloc: Global,
    file: &File,
    entry: &Entry,
    values: &Values,
) -> Result<ItemList<i64>, RefFault>
    requires bounded { IsBounded entry.now }
    requires few { length values.now ≤ FILE_LIMIT }
    ensures { GivesRefs result (refs file.now (entry.now, values.now)) }
{
    let mut scratch = RefScratch::new(alloc);
    put_refs(&mut scratch, alloc, file, entry, values)?;
    Ok(scratch.numbers)
}
