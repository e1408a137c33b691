//! What is said of a rule on the records of a solid that fails.

ghost use Rattle.std.specs.Prelude.{◌≡◌, ◌++◌, OnOk};
ghost use Rattle.where_solids.specs.Told.{record_rest, record_start};

use crate::hints::put_solids_hint;
use crate::lines::put_units;
use iges_base::{ItemList, NoMemory, Out};
use iges_params::File;
use std::alloc::Global;
use where_entities::put_entities;
use where_places::PlacedFile;
use where_records::{FailingRecord, put_record};
use where_unjudged::{put_kind_hint, put_shells_hint, true_solids};

// The units and whether a solid has a shell; where no path leads to the entity, instead what it is, and the file's solids.
fn put_start(
    alloc: Global,
    out: &mut Out,
    file: &File,
    fault: FailingRecord,
) -> Result<(), NoMemory>
    ensures { OnOk result (out.new ≡ out.old
        ++ record_start file.now fault.solid fault.failing fault.path) }
{
    match fault.path {
        Some(_) => {
            put_units(out, file)?;
            put_shells_hint(out, file, fault.solid, fault.failing)
        }
        None => {
            put_kind_hint(out, file, fault.solid)?;
            let solids = true_solids(alloc, file)?;
            put_solids_hint(out, &solids)
        }
    }
}

/// Appends what follows the verdict on a solid of which a rule on the records fails: the units, or where the number names no
/// solid which do; the paragraph of the rule, and those of the entities that it names.
#[tactic(auto, unfolding(crate::specs::Told::record_rest))]
pub fn put_record_rest(
    alloc: Global,
    out: &mut Out,
    placed: &PlacedFile,
    fault: FailingRecord,
) -> Result<(), NoMemory>
    ensures { OnOk result (out.new ≡ out.old
        ++ record_rest placed.now fault.solid fault.failing fault.path) }
{
    let mut named = ItemList::new(alloc);
    put_start(alloc, out, &placed.file, fault)?;
    put_record(alloc, out, &mut named, placed, fault)?;
    put_entities(alloc, out, placed, &named)
}
