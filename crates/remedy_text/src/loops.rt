//! Loops that are reversed.

ghost use Rattle.std.specs.Prelude.{◌≡◌, ◌++◌, IfOk, OnOk, flat_map, option_copied};
ghost use Rattle.std.specs.List.{enumerate_from};
ghost use Rattle.remedy_text.specs.Told.{reversed as are_reversed, reversed_at, reversed_if, reversed_in, told_if};

use crate::told::FaceLoop;
use iges_base::{EntryNo, ItemList, NoMemory};
use shell_change::{Fate, LoopNow};
use solid_data::{FaceUse, Loop};
use std::alloc::Global;

fn push_reversed(
    told: &mut ItemList<FaceLoop>,
    face: EntryNo,
    walk: &Loop,
    now: Option<&LoopNow>,
) -> Result<(), NoMemory>
    ensures { OnOk result (told.new
        ≡ told.old ++ told_if (reversed_if face walk.now) (option_copied now.entry)) }
{
    match now {
        Some(now) if now.reversed => told.push(FaceLoop {
            walk: walk.entity,
            face,
        }),
        _ => Ok(()),
    }
}

fn push_each_reversed(
    told: &mut ItemList<FaceLoop>,
    face: EntryNo,
    loops: &[Loop],
    nows: &ItemList<LoopNow>,
) -> Result<(), NoMemory>
    ensures { OnOk result (told.new
        ≡ told.old ++ flat_map (reversed_at face nows.now) (enumerate_from 0 loops.now)) }
{
    'loops: for i in 0..loops.len() {
        push_reversed(told, face, &loops[i], nows.get(i))?;
    }
    Ok(())
}

fn push_reversed_in(
    told: &mut ItemList<FaceLoop>,
    face: &FaceUse,
    fate: Option<&Fate>,
) -> Result<(), NoMemory>
    ensures { OnOk result (told.new
        ≡ told.old ++ told_if (reversed_in face.now) (option_copied fate.entry)) }
{
    match fate {
        Some(Fate::Kept(now)) => {
            push_each_reversed(told, face.entity, face.loops.as_slice(), &now.loops)
        }
        _ => Ok(()),
    }
}

/// The loops that are reversed.
pub(crate) fn reversed(
    alloc: Global,
    faces: &[FaceUse],
    fates: &ItemList<Fate>,
) -> Result<ItemList<FaceLoop>, NoMemory>
    ensures { IfOk result (λ told. told ≡ are_reversed faces.now fates.now) }
{
    let mut told = ItemList::new(alloc);
    'faces: for i in 0..faces.len() {
        push_reversed_in(&mut told, &faces[i], fates.get(i))?;
    }
    Ok(told)
}
