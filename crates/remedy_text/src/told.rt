//! Faces that are removed or turned, and loops that are reversed.

ghost use Rattle.std.specs.Prelude.{◌≡◌, ◌++◌, IfOk, OnOk, option_copied};
ghost use Rattle.solid_data.specs.SolidData.{same_flag};
ghost use Rattle.remedy_text.specs.Told.{faces_of as all_faces, removed as are_removed, removed_if, told_if, turned as are_turned, turned_if};

use iges_base::{EntryNo, ItemList, NoMemory};
use shell_change::Fate;
use solid_data::{FaceUse, ShellAt, Solid};
use std::alloc::Global;

/// A loop of a face.
#[derive(Clone, Copy)]
pub struct FaceLoop {
    pub walk: EntryNo,
    pub face: EntryNo,
}

/// A tuple of a loop, by its number in the loop's record, and a flag.
#[derive(Clone, Copy)]
pub struct TupleFlag {
    pub walk: EntryNo,
    pub tuple: usize,
    pub flag: bool,
}

/// The faces of a shell; none where there is no such shell.
pub(crate) fn faces_of(solid: &Solid, shell: ShellAt) -> &[FaceUse]
    ensures { result.now ≡ all_faces solid.now shell.0 }
{
    match solid.shell(shell) {
        Some(shell) => shell.faces.as_slice(),
        None => &[],
    }
}

/// Whether two flags are the same.
pub(crate) fn same(a: bool, b: bool) -> bool
    ensures { result ≡ same_flag a b }
{
    if a { b } else { !b }
}

fn push_removed(
    told: &mut ItemList<EntryNo>,
    face: EntryNo,
    fate: Option<&Fate>,
) -> Result<(), NoMemory>
    ensures { OnOk result (told.new
        ≡ told.old ++ told_if (removed_if face) (option_copied fate.entry)) }
{
    match fate {
        Some(Fate::Removed) => told.push(face),
        _ => Ok(()),
    }
}

/// The faces that are removed.
pub(crate) fn removed(
    alloc: Global,
    faces: &[FaceUse],
    fates: &ItemList<Fate>,
) -> Result<ItemList<EntryNo>, NoMemory>
    ensures { IfOk result (λ told. told ≡ are_removed faces.now fates.now) }
{
    let mut told = ItemList::new(alloc);
    'faces: for i in 0..faces.len() {
        push_removed(&mut told, faces[i].entity, fates.get(i))?;
    }
    Ok(told)
}

fn push_turned(
    told: &mut ItemList<EntryNo>,
    face: &FaceUse,
    fate: Option<&Fate>,
) -> Result<(), NoMemory>
    ensures { OnOk result (told.new
        ≡ told.old ++ told_if (turned_if face.now) (option_copied fate.entry)) }
{
    match fate {
        Some(Fate::Kept(now)) if !same(face.flag, now.flag) => told.push(face.entity),
        _ => Ok(()),
    }
}

/// The faces that are kept with another flag.
pub(crate) fn turned(
    alloc: Global,
    faces: &[FaceUse],
    fates: &ItemList<Fate>,
) -> Result<ItemList<EntryNo>, NoMemory>
    ensures { IfOk result (λ told. told ≡ are_turned faces.now fates.now) }
{
    let mut told = ItemList::new(alloc);
    'faces: for i in 0..faces.len() {
        push_turned(&mut told, &faces[i], fates.get(i))?;
    }
    Ok(told)
}
