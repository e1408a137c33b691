//! The file in which a solid is closed.

ghost use Rattle.brep_walk.specs.SolidOf.{solid_of};
ghost use Rattle.changed_file.specs.Changed.{changed as changed_contents};
ghost use Rattle.iges_params.specs.Contents.{Contents};
ghost use Rattle.solid_mend.specs.Mended.{AreClosed, AreRemediesOf, IsMadeWith, IsMended, IsMendingOf, IsTakenOf};
ghost use Rattle.std.specs.List.{AllZip};
ghost use Rattle.std.specs.Prelude.{◌≡◌, ℕ, IfOk, IfSome};

use crate::judging::are_closed;
use crate::shells::{ShellRemedies, remedies_of};
use crate::taking::{all_have, all_sure, changes_of, faces_needed, numbers_of};
use changed_file::{ChangeFault, changed};
use iges_base::{EntryNo, ItemList, NoMemory};
use iges_params::File;
use shell_change::Change;
use solid_data::Solid;
use std::alloc::Global;

/// Which remedy is taken of each shell that fails.
#[derive(Clone, Copy)]
pub enum Choice {
    /// The first, if it is sure.
    Sure,
    /// That of this number, from 1, or the first where a shell has fewer.
    Numbered(u32),
}

/// A file in which a solid is closed.
#[derive(Drop)]
pub struct Mended {
    pub file: File,
    /// What was changed, one change for each shell that fails.
    pub changes: ItemList<Change>,
    /// The number of each among the remedies of its shell, from 1.
    pub numbers: Vec<usize>,
}

/// Why no such file is made.
#[derive(Clone, Copy)]
pub enum Unmended {
    /// A shell has no remedy, or with those that were taken not all is closed.
    Stuck,
    /// So many faces must be made anew.
    NeedsFaces(usize),
    /// The first remedies aren't all sure. With this number a file is made.
    Unsure(u32),
}

/// What came of mending a solid.
#[derive(Drop)]
pub enum Mending {
    Mended(Mended),
    Unmended(Unmended),
}

// The most remedies that a shell has.
const MOST: usize = 6;

fn new_file(
    alloc: Global,
    file: &File,
    solid: &Solid,
    changes: &[Change],
) -> Result<Option<File>, NoMemory>
    ensures { IfOk result (λ o. IfSome o (λ new. new
        ≡ changed_contents file.now solid.now changes.now)) }
{
    match changed(alloc, file, solid, changes) {
        Ok(new) => Ok(Some(new)),
        Err(ChangeFault::Unfit) => Ok(None),
        Err(ChangeFault::NoMemory) => Err(NoMemory),
    }
}

// The changes that are taken, one of each shell, and their numbers.
#[derive(Drop)]
struct Taken {
    changes: ItemList<Change>,
    numbers: Vec<usize>,
}

fn taken_of(
    alloc: Global,
    found: &[ShellRemedies],
    wanted: usize,
) -> Result<Option<Taken>, NoMemory>
    ensures { IfOk result (λ o. IfSome o (λ taken. AllZip IsTakenOf found.now taken.changes)) }
{
    let Some(changes) = changes_of(alloc, found, wanted)? else {
        return Ok(None);
    };
    let numbers = numbers_of(alloc, found, wanted)?;
    Ok(Some(Taken { changes, numbers }))
}

// The file with these changes, if all is closed in it.
fn judged(
    alloc: Global,
    new: File,
    taken: Taken,
    no: EntryNo,
    from: usize,
) -> Result<Option<Mended>, NoMemory>
    ensures { IfOk result (λ o. IfSome o (λ m. (m.file ≡ new) × (m.changes ≡ taken.changes) × AreClosed new no.0 from)) }
{
    if !are_closed(alloc, &new, no, from)? {
        return Ok(None);
    }
    Ok(Some(Mended {
        file: new,
        changes: taken.changes,
        numbers: taken.numbers,
    }))
}

// The same, where the changes are those of a solid, which gives its memory back before the file is judged.
fn made_with(
    alloc: Global,
    file: &File,
    no: EntryNo,
    solid: Solid,
    taken: Taken,
) -> Result<Option<Mended>, NoMemory>
    ensures { IfOk result (λ o. IfSome o (IsMadeWith file.now solid no.0 taken.changes)) }
{
    let new = new_file(alloc, file, &solid, taken.changes.as_slice());
    drop(solid);
    match new? {
        Some(new) => judged(alloc, new, taken, no, file.entry_count()),
        None => Ok(None),
    }
}

// Whether all is closed with these remedies.
fn is_made(
    alloc: Global,
    file: &File,
    no: EntryNo,
    solid: &Solid,
    found: &[ShellRemedies],
    wanted: usize,
) -> Result<bool, NoMemory> {
    let Some(taken) = taken_of(alloc, found, wanted)? else {
        return Ok(false);
    };
    match new_file(alloc, file, solid, taken.changes.as_slice())? {
        Some(new) => Ok(judged(alloc, new, taken, no, file.entry_count())?.is_some()),
        None => Ok(false),
    }
}

// The least number with which a file is made.
fn least_number(
    alloc: Global,
    file: &File,
    no: EntryNo,
    solid: &Solid,
    found: &[ShellRemedies],
) -> Result<Unmended, NoMemory> {
    'numbers: for wanted in 1..MOST + 1 {
        if is_made(alloc, file, no, solid, found, wanted)? {
            return Ok(Unmended::Unsure(wanted as u32));
        }
    }
    Ok(Unmended::Stuck)
}

fn number_in(choice: Choice) -> usize {
    match choice {
        Choice::Sure => 1,
        Choice::Numbered(number) => number as usize,
    }
}

fn wants_sure(choice: Choice) -> bool {
    matches!(choice, Choice::Sure)
}

// Why no file is made with what is chosen, where the remedies tell it.
fn unmended_by(
    alloc: Global,
    file: &File,
    no: EntryNo,
    solid: &Solid,
    found: &[ShellRemedies],
    choice: Choice,
) -> Result<Option<Unmended>, NoMemory> {
    if !all_have(found) {
        return Ok(Some(Unmended::Stuck));
    }
    let faces = faces_needed(found, number_in(choice));
    if faces > 0 {
        return Ok(Some(Unmended::NeedsFaces(faces)));
    }
    if wants_sure(choice) && !all_sure(found) {
        let why = least_number(alloc, file, no, solid, found)?;
        return Ok(Some(why));
    }
    Ok(None)
}

fn mending_by(made: Option<Mended>) -> Mending
    ensures { (f : Contents) (n : ℕ) → IfSome made (λ m. IsMended f n m.changes m.file) → IsMendingOf f n result }
{
    match made {
        Some(mended) => Mending::Mended(mended),
        None => Mending::Unmended(Unmended::Stuck),
    }
}

// The file with these remedies, which give their memory back before it is made.
fn made(
    alloc: Global,
    file: &File,
    no: EntryNo,
    solid: Solid,
    found: Vec<ShellRemedies>,
    wanted: usize,
) -> Result<Mending, NoMemory>
    requires solid { solid ≡ solid_of file.now no.0 }
    requires remedies { AreRemediesOf file.now solid found.items }
    ensures { IfOk result (IsMendingOf file.now no.0) }
{
    let taken = taken_of(alloc, found.as_slice(), wanted);
    drop(found);
    match taken? {
        Some(taken) => Ok(mending_by(made_with(alloc, file, no, solid, taken)?)),
        None => Ok(Mending::Unmended(Unmended::Stuck)),
    }
}

fn mended_by(
    alloc: Global,
    file: &File,
    no: EntryNo,
    solid: Solid,
    found: Vec<ShellRemedies>,
    choice: Choice,
) -> Result<Mending, NoMemory>
    requires solid { solid ≡ solid_of file.now no.0 }
    requires remedies { AreRemediesOf file.now solid found.items }
    ensures { IfOk result (IsMendingOf file.now no.0) }
{
    match unmended_by(alloc, file, no, &solid, found.as_slice(), choice)? {
        Some(why) => Ok(Mending::Unmended(why)),
        None => made(alloc, file, no, solid, found, number_in(choice)),
    }
}

/// The file in which a solid of a file is closed, made by one remedy for each of its shells that fail; or why none is made.
pub fn mend(
    alloc: Global,
    file: &File,
    no: EntryNo,
    solid: Solid,
    choice: Choice,
) -> Result<Mending, NoMemory>
    requires { solid ≡ solid_of file.now no.0 }
    ensures { IfOk result (IsMendingOf file.now no.0) }
{
    let found = remedies_of(alloc, file, &solid)?;
    mended_by(alloc, file, no, solid, found, choice)
}
