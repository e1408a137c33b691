//! The entries that an entry refers to.

ghost use Rattle.entry_references.specs.EntrySets.{AreRising, with_numbers};
ghost use Rattle.entry_references.specs.References.{AreReferences, Gives, HasFault, IsRefFault};
ghost use Rattle.entry_references.specs.Refs.{names_entry};
ghost use Rattle.entry_references.specs.declared.fault.ExtractReason.{ExtractReason as Reason};
ghost use Rattle.iges_base.specs.declared.entry_no.EntryNo.{EntryNo as Number};
ghost use Rattle.iges_params.specs.Named.{named};
ghost use Rattle.std.specs.List.{list_all};
ghost use Rattle.std.specs.Prelude.{◌≡◌, [], true, List, Ok, Err, IfErr, IfOk, IsSome, length, pos};

use crate::adding::add_numbers;
use crate::entry_set::{EntryList, EntrySet};
use crate::fault::RefFault;
use crate::record::record_of;
use crate::reference_numbers::refs;
use iges_base::{EntryNo, ItemList, NoMemory};
use iges_params::File;
use std::alloc::Global;

// Puts the entries that the numbers name, and lists all that are there in rising order.
fn listed_with(
    set: &mut EntrySet,
    alloc: Global,
    file: &File,
    numbers: &ItemList<i64>,
) -> Result<EntryList, NoMemory>
    requires size { set.old.size ≡ length file.now.entries }
    requires name { list_all (names_entry file.now) numbers.now ≡ true }
    ensures { IfOk result (λ list. AreRising list (with_numbers set.old.numbers numbers.now)) }
{
    add_numbers(set, file, numbers)?;
    set.rising(alloc)
}

// The entries that the numbers name, in rising order.
fn rising_of(alloc: Global, file: &File, numbers: &ItemList<i64>) -> Result<EntryList, NoMemory>
    requires { list_all (names_entry file.now) numbers.now ≡ true }
    ensures { IfOk result (λ list. AreRising list (with_numbers [] numbers.now)) }
{
    let mut set = EntrySet::new(alloc, file.entry_count())?;
    let list = listed_with(&mut set, alloc, file, numbers);
    drop(set);
    list
}

fn rising_references(alloc: Global, file: &File, no: EntryNo) -> Result<EntryList, RefFault>
    requires { IsSome (named file.now (pos no.0)) }
    ensures found { IfOk result (AreReferences file.now no.0) }
    ensures fault { IfErr result (IsRefFault file.now no.0) }
{
    let record = record_of(file, no).unwrap();
    let numbers = refs(alloc, file, record.entry, record.values)?;
    let list = rising_of(alloc, file, &numbers);
    drop(numbers);
    Ok(list?)
}

/// The entries that an entry refers to, in rising order, each once: those that the pointers among its own values name
/// (IGES 5.3, 4), its transformation matrix (2.2.4.4.7), its colour where that is an entry (2.2.4.4.13), and the names
/// among its properties (2.2.4.5.2). The first of its faults is given in their place.
pub fn references(alloc: Global, file: &File, no: EntryNo) -> Result<EntryList, RefFault>
    requires { IsSome (named file.now (pos no.0)) }
    ensures found { IfOk result (AreReferences file.now no.0) }
    ensures only { (nos : List Number) → AreReferences file.now no.0 nos → Gives result (Ok nos) }
    ensures fault { IfErr result (IsRefFault file.now no.0) }
    ensures only_fault { (reason : Reason) → HasFault file.now no.0 reason
        → Gives {T = List Number} result (Err reason) }
{
    rising_references(alloc, file, no)
}
