//! Copies of changes.

ghost use Rattle.std.specs.Prelude.{◌≡◌, IfOk};

use iges_base::{ItemList, NoMemory};
use shell_change::{Change, FaceNow, Fate, LoopNow, Rim};
use std::alloc::Global;

fn copied_items<T: Copy + Drop>(alloc: Global, items: &[T]) -> Result<ItemList<T>, NoMemory>
    ensures { IfOk result (λ copy. copy ≡ items.now) }
{
    let mut copy = ItemList::with_room(alloc, items.len())?;
    'items: for i in 0..items.len() {
        copy.push(items[i])?;
    }
    Ok(copy)
}

fn copied_loop(alloc: Global, now: &LoopNow) -> Result<LoopNow, NoMemory>
    ensures { IfOk result (λ copy. copy ≡ now.now) }
{
    Ok(LoopNow {
        reversed: now.reversed,
        uses: copied_items(alloc, now.uses.as_slice())?,
    })
}

fn copied_loops(alloc: Global, loops: &[LoopNow]) -> Result<ItemList<LoopNow>, NoMemory>
    ensures { IfOk result (λ copy. copy ≡ loops.now) }
{
    let mut copy = ItemList::with_room(alloc, loops.len())?;
    'loops: for i in 0..loops.len() {
        copy.push(copied_loop(alloc, &loops[i])?)?;
    }
    Ok(copy)
}

fn copied_fate(alloc: Global, fate: &Fate) -> Result<Fate, NoMemory>
    ensures { IfOk result (λ copy. copy ≡ fate.now) }
{
    match fate {
        Fate::Removed => Ok(Fate::Removed),
        Fate::Kept(face) => Ok(Fate::Kept(FaceNow {
            piece: face.piece,
            flag: face.flag,
            loops: copied_loops(alloc, face.loops.as_slice())?,
        })),
    }
}

fn copied_fates(alloc: Global, fates: &[Fate]) -> Result<ItemList<Fate>, NoMemory>
    ensures { IfOk result (λ copy. copy ≡ fates.now) }
{
    let mut copy = ItemList::with_room(alloc, fates.len())?;
    'faces: for i in 0..fates.len() {
        copy.push(copied_fate(alloc, &fates[i])?)?;
    }
    Ok(copy)
}

fn copied_rim(alloc: Global, rim: &Rim) -> Result<Rim, NoMemory>
    ensures { IfOk result (λ copy. copy ≡ rim.now) }
{
    Ok(Rim {
        piece: rim.piece,
        edges: copied_items(alloc, rim.edges.as_slice())?,
    })
}

fn copied_rims(alloc: Global, rims: &[Rim]) -> Result<ItemList<Rim>, NoMemory>
    ensures { IfOk result (λ copy. copy ≡ rims.now) }
{
    let mut copy = ItemList::with_room(alloc, rims.len())?;
    'rims: for i in 0..rims.len() {
        copy.push(copied_rim(alloc, &rims[i])?)?;
    }
    Ok(copy)
}

/// A copy of a change.
pub(crate) fn copied_change(alloc: Global, change: &Change) -> Result<Change, NoMemory>
    ensures { IfOk result (λ copy. copy ≡ change.now) }
{
    Ok(Change {
        shell: change.shell,
        faces: copied_fates(alloc, change.faces.as_slice())?,
        vertices: copied_items(alloc, change.vertices.as_slice())?,
        edges: copied_items(alloc, change.edges.as_slice())?,
        seams: copied_items(alloc, change.seams.as_slice())?,
        moves: copied_items(alloc, change.moves.as_slice())?,
        rims: copied_rims(alloc, change.rims.as_slice())?,
    })
}
