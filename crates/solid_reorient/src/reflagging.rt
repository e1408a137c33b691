//! A file with other flags for the faces of a solid's shells.

ghost use Rattle.brep_walk.specs.Places.{numbers, shells};
ghost use Rattle.solid_reorient.specs.Reflagged.{reflagged, reflagged_values};
ghost use Rattle.solid_reorient.specs.Steps.{list_numbered};
ghost use Rattle.std.specs.Prelude.{◌≡◌, IfOk, pos};

use crate::flag_values::set_flags;
use crate::table::{list_numbered, table_of};
use brep_loops::SolidRecord;
use flag_choice::FlagLists;
use iges_base::{EntryNo, ItemList, NoMemory};
use iges_directory::Entry;
use iges_fields::Values;
use iges_params::File;
use orient_certificate::FlagList;
use solid_extract::blank;
use std::alloc::Global;

// The numbers of a solid's shells. Its record fits, so that it errs only where memory runs out.
fn shell_numbers(alloc: Global, file: &File, no: EntryNo) -> Result<ItemList<i64>, NoMemory>
    ensures { IfOk result (λ list. list ≡ numbers (shells file.now (pos no.0))) }
{
    let mut list = ItemList::new(alloc);
    let Some(values) = file.values(no) else {
        return Err(NoMemory);
    };
    let Some(record) = SolidRecord::of(values) else {
        return Err(NoMemory);
    };
    'shells: for i in 0..record.len() {
        let (number, _) = record.item(i).unwrap();
        list.push(number)?;
    }
    Ok(list)
}

// The values of an entry, with the flags of the list of this number, if there is one.
fn entry_values(entry: &Entry, mut values: Values, flags: &[FlagList], number: usize) -> Values
    ensures { result ≡ reflagged_values (list_numbered flags.now number) (entry.now, values) }
{
    if entry.kind != 514 {
        return values;
    }
    if let Some(list) = list_numbered(flags, number) {
        set_flags(&mut values, list.as_slice());
    }
    values
}

/// The file in which the shells of a solid have these flags for their faces. The values of all other records are
/// moved.
pub fn reflagged(
    alloc: Global,
    mut file: File,
    no: EntryNo,
    flags: &FlagLists,
) -> Result<File, NoMemory>
    ensures { IfOk result (λ new. new ≡ reflagged file no.0 flags.now) }
{
    let shells = shell_numbers(alloc, &file, no)?;
    let count = file.entry_count();
    let table = table_of(alloc, count, shells.as_slice())?;
    let mut new = blank(alloc, file.global().delims)?;
    'entries: for i in 0..count {
        let entry = *file.entry_at(i).unwrap();
        let taken = file.take_values(alloc, i);
        let values = entry_values(&entry, taken, flags.as_slice(), table[i]);
        new.push(entry, values)?;
    }
    new.take_front(file);
    Ok(new)
}
