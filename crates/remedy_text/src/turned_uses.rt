//! Uses of edges that are turned.

ghost use Rattle.std.specs.Prelude.{◌≡◌, ◌<◌, ◌++◌, IfOk, OnOk, flat_map, option_copied};
ghost use Rattle.std.specs.List.{enumerate_from};
ghost use Rattle.remedy_text.specs.Told.{flags as are_flags, flags_at, flags_if, flags_in, told_if, tuple_of as tuple_is, turned_use};

use crate::told::{TupleFlag, same};
use iges_base::{EntryNo, ItemList, NoMemory};
use shell_change::{Fate, LoopNow, UseNow};
use solid_data::{FaceUse, Loop};
use std::alloc::Global;

// The tuple, from 1, that a use of a loop is; uses count from 0.
fn tuple_of(reversed: bool, len: usize, i: usize) -> usize
    requires { i < len }
    ensures { result ≡ tuple_is reversed len i }
{
    if reversed { len - i } else { i + 1 }
}

fn push_turned_use(
    told: &mut ItemList<TupleFlag>,
    walk: EntryNo,
    reversed: bool,
    tuple: usize,
    now: UseNow,
) -> Result<(), NoMemory>
    ensures { OnOk result (told.new ≡ told.old ++ turned_use walk reversed tuple now) }
{
    match now {
        UseNow::OnEdge(now) if now.turned => told.push(TupleFlag {
            walk,
            tuple,
            flag: same(now.along, !reversed),
        }),
        _ => Ok(()),
    }
}

fn push_turned_uses(
    told: &mut ItemList<TupleFlag>,
    walk: EntryNo,
    now: &LoopNow,
) -> Result<(), NoMemory>
    ensures { OnOk result (told.new ≡ told.old ++ flags_if walk now.now) }
{
    let uses = now.uses.as_slice();
    'uses: for i in 0..uses.len() {
        let tuple = tuple_of(now.reversed, uses.len(), i);
        push_turned_use(told, walk, now.reversed, tuple, uses[i])?;
    }
    Ok(())
}

fn push_flags(
    told: &mut ItemList<TupleFlag>,
    walk: EntryNo,
    now: Option<&LoopNow>,
) -> Result<(), NoMemory>
    ensures { OnOk result (told.new
        ≡ told.old ++ told_if (flags_if walk) (option_copied now.entry)) }
{
    match now {
        Some(now) => push_turned_uses(told, walk, now),
        None => Ok(()),
    }
}

fn push_each_flags(
    told: &mut ItemList<TupleFlag>,
    loops: &[Loop],
    nows: &ItemList<LoopNow>,
) -> Result<(), NoMemory>
    ensures { OnOk result (told.new
        ≡ told.old ++ flat_map (flags_at nows.now) (enumerate_from 0 loops.now)) }
{
    'loops: for i in 0..loops.len() {
        push_flags(told, loops[i].entity, nows.get(i))?;
    }
    Ok(())
}

fn push_flags_in(
    told: &mut ItemList<TupleFlag>,
    face: &FaceUse,
    fate: Option<&Fate>,
) -> Result<(), NoMemory>
    ensures { OnOk result (told.new
        ≡ told.old ++ told_if (flags_in face.now) (option_copied fate.entry)) }
{
    match fate {
        Some(Fate::Kept(now)) => push_each_flags(told, face.loops.as_slice(), &now.loops),
        _ => Ok(()),
    }
}

/// The uses of edges that are turned.
pub(crate) fn flags(
    alloc: Global,
    faces: &[FaceUse],
    fates: &ItemList<Fate>,
) -> Result<ItemList<TupleFlag>, NoMemory>
    ensures { IfOk result (λ told. told ≡ are_flags faces.now fates.now) }
{
    let mut told = ItemList::new(alloc);
    'faces: for i in 0..faces.len() {
        push_flags_in(&mut told, &faces[i], fates.get(i))?;
    }
    Ok(told)
}
