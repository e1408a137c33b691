//! Entries that numbers name, put into a set.

ghost use Rattle.entry_references.specs.EntrySets.{HasFirstOf, with_number, with_numbers};
ghost use Rattle.entry_references.specs.Refs.{names_entry};
ghost use Rattle.std.specs.List.{list_all};
ghost use Rattle.std.specs.Prelude.{◌≡◌, true, OnErr, OnOk, length, unsigned_abs};

use crate::entry_set::EntrySet;
use iges_base::{ItemList, NoMemory};
use iges_params::File;

fn add_number(set: &mut EntrySet, file: &File, number: i64) -> Result<(), NoMemory>
    requires size { set.old.size ≡ length file.now.entries }
    requires names { names_entry file.now number ≡ true }
    ensures ok { OnOk result (set.new ≡ record set.old {
      numbers = with_number set.old.numbers
          (unsigned_abs number);
    }) }
    ensures err { OnErr result (set.new ≡ set.old) }
{
    match file.entry_no_of(number) {
        Some(no) => set.add(no),
        None => Ok(()),
    }
}

/// Puts the entries that the numbers name. Where memory runs out, some of the first of them may have been put,
/// and no more.
pub fn add_numbers(set: &mut EntrySet, file: &File, numbers: &ItemList<i64>) -> Result<(), NoMemory>
    requires size { set.old.size ≡ length file.now.entries }
    requires name { list_all (names_entry file.now) numbers.now ≡ true }
    ensures ok { OnOk result (set.new
        ≡ record set.old { numbers = with_numbers set.old.numbers numbers.now }) }
    ensures err { OnErr result (HasFirstOf set.old numbers.now set.new) }
{
    'numbers: for number in numbers.as_slice() {
        add_number(set, file, *number)?;
    }
    Ok(())
}
