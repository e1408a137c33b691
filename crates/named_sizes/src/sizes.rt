//! How much each solid names.

ghost use Rattle.iges_base.specs.declared.entry_no.EntryNo.{EntryNo as AnyEntryNo};
ghost use Rattle.named_sizes.specs.Sizes.{AreSizes, capped, face_size as size_of_face, shell_size as size_of_shell, solid_size as size_of_solid};
ghost use Rattle.std.specs.Prelude.{◌≡◌, IfOk, map, pos};

use crate::records::{Sizes, face_size, shell_size, solid_size};
use iges_base::{EntryNo, ItemList, NoMemory};
use iges_params::File;
use std::alloc::Global;

fn face_sizes(alloc: Global, file: &File) -> Result<Sizes, NoMemory>
    ensures { IfOk result (AreSizes (size_of_face file.now)) }
{
    let count = 2 * file.entry_count();
    let mut sizes = ItemList::with_room(alloc, count)?;
    'numbers: for n in 0..count {
        sizes.push(face_size(file, n as i64))?;
    }
    Ok(sizes)
}

fn shell_sizes(alloc: Global, file: &File, faces: &Sizes) -> Result<Sizes, NoMemory>
    requires { AreSizes (size_of_face file.now) faces.now }
    ensures { IfOk result (AreSizes (size_of_shell file.now)) }
{
    let count = 2 * file.entry_count();
    let mut sizes = ItemList::with_room(alloc, count)?;
    'numbers: for n in 0..count {
        sizes.push(shell_size(file, faces, n as i64))?;
    }
    Ok(sizes)
}

fn each_size(
    alloc: Global,
    file: &File,
    faces: &Sizes,
    shells: &Sizes,
    solids: &[EntryNo],
) -> Result<ItemList<u64>, NoMemory>
    requires faces { AreSizes (size_of_face file.now) faces.now }
    requires shells { AreSizes (size_of_shell file.now) shells.now }
    ensures { IfOk result (λ sizes. sizes ≡ map (λ (n : AnyEntryNo). capped (size_of_solid file.now (pos n.0))) solids.now) }
{
    let mut sizes = ItemList::with_room(alloc, solids.len())?;
    'solids: for i in 0..solids.len() {
        sizes.push(solid_size(file, faces, shells, i64::from(solids[i].0)))?;
    }
    Ok(sizes)
}

/// The size of the loops that each of these solids names by its shells and their faces, each loop as often as it is named: its
/// values, and 100; of more than 4,294,967,295 that number. It goes once over the records of the file's faces and
/// shells, however often they are named.
pub fn solid_sizes(
    alloc: Global,
    file: &File,
    solids: &[EntryNo],
) -> Result<ItemList<u64>, NoMemory>
    ensures { IfOk result (λ sizes. sizes ≡ map (λ (n : AnyEntryNo). capped (size_of_solid file.now (pos n.0))) solids.now) }
{
    let faces = face_sizes(alloc, file)?;
    let shells = shell_sizes(alloc, file, &faces)?;
    let sizes = each_size(alloc, file, &faces, &shells, solids);
    drop(shells);
    drop(faces);
    sizes
}
