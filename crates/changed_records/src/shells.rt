//! The values of shells and of solids after the change.

ghost use Rattle.brep_lists.specs.Record.{count_at as counted};
ghost use Rattle.changed_records.specs.Shells.{new_shell_values, new_solid_values, pair_values, shell_values, solid_values};
ghost use Rattle.std.specs.Prelude.{◌≡◌, ◌≤◌, ◌^◌, ◌++◌, IfOk, OnOk, flat_map, length};

use crate::fault::ChangeFault;
use crate::list_values::short_count;
use crate::putting::{push_flag, push_number};
use brep_lists::count_at;
use iges_base::NoMemory;
use iges_fields::Values;
use iges_params::push_copies;
use std::alloc::Global;

/// A face of a shell, or a shell of a solid: its directory number, and its flag there.
#[derive(Clone, Copy)]
pub struct FaceFlag {
    pub number: u32,
    pub flag: bool,
}

fn push_pair(list: &mut Values, pair: FaceFlag) -> Result<(), NoMemory>
    ensures { OnOk result (list.new ≡ list.old ++ pair_values pair) }
{
    push_number(list, pair.number)?;
    push_flag(list, pair.flag)
}

fn push_pairs(list: &mut Values, pairs: &[FaceFlag]) -> Result<(), NoMemory>
    ensures { OnOk result (list.new ≡ list.old ++ flat_map pair_values pairs.now) }
{
    'pairs: for i in 0..pairs.len() {
        push_pair(list, pairs[i])?;
    }
    Ok(())
}

// A count in a record, which is small where the record has as many items.
fn small_count(values: &Values, place: usize) -> Result<usize, ChangeFault>
    ensures is { IfOk result (λ n. n ≡ counted values.now place) }
    ensures small { IfOk result (λ n. n ≤ 2 ^ 32) }
{
    let count = count_at(values, place);
    if count > u32::MAX as usize {
        return Err(ChangeFault::Unfit);
    }
    Ok(count)
}

/// The values of a shell with these faces.
#[tactic(auto, unfolding(crate::specs::Shells::new_shell_values))]
pub fn new_shell_values(alloc: Global, faces: &[FaceFlag]) -> Result<Values, ChangeFault>
    ensures { IfOk result (λ list. list ≡ new_shell_values faces.now) }
{
    let mut list = Values::new(alloc);
    push_number(&mut list, short_count(faces.len())?)?;
    push_pairs(&mut list, faces)?;
    Ok(list)
}

/// The values of a shell that has these faces in place of its own.
#[tactic(auto, unfolding(crate::specs::Shells::shell_values))]
pub fn shell_values(
    alloc: Global,
    values: &Values,
    faces: &[FaceFlag],
) -> Result<Values, ChangeFault>
    ensures { IfOk result (λ list. list ≡ shell_values values.now faces.now) }
{
    let count = small_count(values, 0)?;
    let mut list = new_shell_values(alloc, faces)?;
    push_copies(&mut list, alloc, values, 1 + 2 * count, values.len())?;
    Ok(list)
}

/// The values of a solid with this outer shell, and no voids.
#[tactic(auto, unfolding(crate::specs::Shells::new_solid_values))]
pub fn new_solid_values(alloc: Global, outer: FaceFlag) -> Result<Values, ChangeFault>
    ensures { IfOk result (λ list. list ≡ new_solid_values outer) }
{
    let mut list = Values::new(alloc);
    push_pair(&mut list, outer)?;
    push_number(&mut list, 0)?;
    Ok(list)
}

/// The values of a solid with these voids behind all its own.
#[tactic(auto, unfolding(crate::specs::Shells::solid_values))]
pub fn solid_values(
    alloc: Global,
    values: &Values,
    voids: &[FaceFlag],
) -> Result<Values, ChangeFault>
    ensures { IfOk result (λ list. list ≡ solid_values values.now voids.now) }
{
    let count = small_count(values, 2)?;
    let added = short_count(voids.len())?;
    let number = short_count(count + added as usize)?;
    let mut list = Values::new(alloc);
    push_copies(&mut list, alloc, values, 0, 2)?;
    push_number(&mut list, number)?;
    push_copies(&mut list, alloc, values, 3, 2 * count)?;
    push_pairs(&mut list, voids)?;
    push_copies(&mut list, alloc, values, 3 + 2 * count, values.len())?;
    Ok(list)
}
