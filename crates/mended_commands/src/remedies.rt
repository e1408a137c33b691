//! The changes of a solid's shells, told as remedies.

ghost use Rattle.brep_walk.specs.SolidOf.{solid_of};
ghost use Rattle.mended_commands.specs.Due.{dropped_line, heading as heading_of, remedies_told};
ghost use Rattle.remedy_text.specs.Remedies.{remedy_text};
ghost use Rattle.std.specs.Prelude.{◌≡◌, ◌++◌, IfOk, OnOk, flat_map};
ghost use Rattle.where_text.specs.declared.listing.Listing.TheVariants.{Few as FewOf};

use brep_walk::{WalkFault, walk};
use iges_base::{Bytes, EntryNo, ItemList, NoMemory, Out, write_number};
use iges_params::File;
use named_once::Dropped;
use remedy_text::{Heading, RemedyView, put_remedy};
use shell_change::Change;
use solid_data::Solid;
use spelled_solid::SpelledSolid;
use std::alloc::Global;
use where_text::Listing;

fn put_change(
    alloc: Global,
    out: &mut Out,
    file: &File,
    solid: &Solid,
    number: usize,
    change: &Change,
) -> Result<(), NoMemory>
    ensures { OnOk result (out.new ≡ out.old
        ++ remedy_text FewOf file.now solid.now (heading_of number) change.now) }
{
    let spelled = SpelledSolid::new(alloc, file, solid);
    let view = RemedyView {
        file,
        solid,
        spelled: &spelled,
        listing: Listing::Few,
    };
    let heading = Heading {
        number,
        explained: false,
    };
    let mut named = ItemList::new(alloc);
    put_remedy(alloc, out, &mut named, &view, heading, change)
}

fn put_changes(
    alloc: Global,
    out: &mut Out,
    file: &File,
    solid: &Solid,
    numbers: &[usize],
    changes: &[Change],
) -> Result<(), NoMemory>
    ensures { OnOk result (out.new ≡ out.old
        ++ remedies_told file.now solid.now numbers.now changes.now) }
{
    // There are as many.
    if numbers.len() != changes.len() {
        return Err(NoMemory);
    }
    'changes: for i in 0..changes.len() {
        put_change(alloc, out, file, solid, numbers[i], &changes[i])?;
    }
    Ok(())
}

// The solid of a file whose places hold: the walk errs only where memory runs out.
fn solid_in(alloc: Global, file: &File, no: u32) -> Result<Solid, NoMemory>
    ensures { IfOk result (λ solid. solid ≡ solid_of file.now no) }
{
    match walk(alloc, file, EntryNo(no)) {
        Ok(solid) => Ok(solid),
        Err(WalkFault::Fails(_)) => Err(NoMemory),
        Err(WalkFault::NoMemory) => Err(NoMemory),
    }
}

fn put_place(out: &mut Out, place: Dropped) -> Result<(), NoMemory>
    ensures { OnOk result (out.new ≡ out.old ++ dropped_line place) }
{
    out.put(b"dropped ")?;
    write_number(out, u64::from(place.entity.0))?;
    out.put(b" item ")?;
    write_number(out, u64::from(place.item))?;
    out.put(b"\n")
}

/// The places that are left out.
pub(crate) fn put_dropped(out: &mut Out, dropped: &[Dropped]) -> Result<(), NoMemory>
    ensures { OnOk result (out.new ≡ out.old ++ flat_map dropped_line dropped.now) }
{
    'places: for i in 0..dropped.len() {
        put_place(out, dropped[i])?;
    }
    Ok(())
}

/// The places that are left out, and then the changes of a solid's shells, each as a remedy of this number.
pub(crate) fn changes_told(
    alloc: Global,
    file: &File,
    no: u32,
    dropped: &[Dropped],
    numbers: &[usize],
    changes: &[Change],
) -> Result<Bytes, NoMemory>
    ensures { IfOk result (λ text. text ≡ flat_map dropped_line dropped.now
        ++ remedies_told file.now (solid_of file.now no) numbers.now changes.now) }
{
    let solid = solid_in(alloc, file, no)?;
    let mut out = Out::new(alloc);
    put_dropped(&mut out, dropped)?;
    put_changes(alloc, &mut out, file, &solid, numbers, changes)?;
    Ok(out.into_bytes())
}
