//! The values of a loop after the change.

ghost use Rattle.changed_records.specs.Loops.{curve_values, loop_values, tuple_from, tuple_now, tuples_now, use_values};
ghost use Rattle.iges_base.specs.declared.TheConstants.{FILE_LIMIT};
ghost use Rattle.std.specs.Prelude.{◌≡◌, ◌≤◌, ◌++◌, IfOk, OnOk, length, map};

use crate::fault::ChangeFault;
use crate::named::{NewLists, edge_item, push_item, vertex_item};
use crate::putting::{push_flag, push_number};
use crate::tuples::{cut_at, tuple_cuts};
use iges_base::NoMemory;
use iges_fields::Values;
use iges_params::push_copies;
use shell_change::{LoopNow, UseNow};
use solid_data::Solid;
use std::alloc::Global;

fn push_use(
    list: &mut Values,
    alloc: Global,
    solid: &Solid,
    lists: NewLists,
    cut: &Values,
    item: UseNow,
) -> Result<(), ChangeFault>
    ensures { OnOk result (list.new ≡ list.old ++ use_values solid.now lists cut.now item) }
{
    match item {
        UseNow::OnEdge(item) => {
            push_item(list, edge_item(solid, lists, item.edge)?)?;
            push_flag(list, item.along)?;
        }
        UseNow::AtVertex { vertex, .. } => {
            push_item(list, vertex_item(solid, lists, vertex)?)?;
            push_copies(list, alloc, cut, 3, 1)?;
        }
    }
    Ok(())
}

fn push_curves(
    list: &mut Values,
    alloc: Global,
    cut: &Values,
    reversed: bool,
) -> Result<(), NoMemory>
    ensures { OnOk result (list.new ≡ list.old ++ curve_values reversed cut.now) }
{
    let count = cut.len();
    if reversed && count <= 4 {
        return push_number(list, 0);
    }
    push_copies(list, alloc, cut, 4, count)
}

fn push_tuple(
    list: &mut Values,
    alloc: Global,
    solid: &Solid,
    lists: NewLists,
    cut: &Values,
    reversed: bool,
    item: UseNow,
) -> Result<(), ChangeFault>
    ensures { OnOk result (list.new
        ≡ list.old ++ tuple_now solid.now lists reversed cut.now item) }
{
    push_copies(list, alloc, cut, 0, 1)?;
    push_use(list, alloc, solid, lists, cut, item)?;
    push_curves(list, alloc, cut, reversed)?;
    Ok(())
}

fn push_tuples(
    list: &mut Values,
    alloc: Global,
    solid: &Solid,
    lists: NewLists,
    values: &Values,
    places: &[usize],
    now: &LoopNow,
) -> Result<(), ChangeFault>
    requires { length values.now ≤ FILE_LIMIT }
    ensures { OnOk result (list.new
        ≡ list.old ++ tuples_now solid.now lists now.now.reversed (map (tuple_from values.now) places.now) 0 now.now.uses) }
{
    let uses = now.uses.as_slice();
    if uses.len() != places.len() {
        return Err(ChangeFault::Unfit);
    }
    'uses: for i in 0..uses.len() {
        let cut = cut_at(alloc, values, places, now.reversed, i)?;
        push_tuple(list, alloc, solid, lists, &cut, now.reversed, uses[i])?;
    }
    Ok(())
}

/// The values of a loop after the change: its tuples name what its uses do then.
#[tactic(auto, unfolding(crate::specs::Loops::loop_values))]
pub fn loop_values(
    alloc: Global,
    solid: &Solid,
    lists: NewLists,
    values: &Values,
    now: &LoopNow,
) -> Result<Values, ChangeFault>
    ensures { IfOk result (λ list. list ≡ loop_values solid.now lists values.now now.now) }
{
    let cuts = tuple_cuts(alloc, values)?;
    let mut list = Values::with_room(alloc, values.len())?;
    push_copies(&mut list, alloc, values, 0, 1)?;
    push_tuples(
        &mut list,
        alloc,
        solid,
        lists,
        values,
        cuts.places.as_slice(),
        now,
    )?;
    push_copies(&mut list, alloc, values, cuts.end, values.len())?;
    Ok(list)
}
