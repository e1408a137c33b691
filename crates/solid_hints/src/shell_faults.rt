//! All that fails in a solid, shell by shell.

ghost use Rattle.iges_base.specs.Word.{is_empty};
ghost use Rattle.solid_data.specs.Numbering.{IsNumberedSolid};
ghost use Rattle.solid_faults.specs.Parts.{faces_apart};
ghost use Rattle.std.specs.Prelude.{◌≡◌, ◌++◌, ◌∷◌, [], IfOk, OnOk, ◌<◌, Some, length, option_copied, slice_get, if◌then◌else◌};
ghost use Rattle.solid_hints.specs.AllFaults.{AreAllFaults, EachBelow, failing_shells, is_failing, none_unlinked};
ghost use Rattle.solid_data.specs.declared.TheConstants.{PART_LIMIT};

use edge_uses::rows;
use iges_base::{ItemList, NoMemory};
use solid_data::{Shell, ShellAt, Solid};
use solid_faults::{Linking, ShellFaults, below_next, faults_of};
use std::alloc::Global;

/// All that fails in each shell of a solid, in order.
pub type AllFaults = ItemList<ShellFaults>;

/// The shell at a place, from 0.
pub fn shell_at(solid: &Solid, k: usize) -> &Shell
    requires shell { k < length solid.now.shells }
    requires few { k < PART_LIMIT }
    ensures is { slice_get solid.now.shells k ≡ Some result.now }
    ensures numbered { IsNumberedSolid solid.now }
{
    solid.shell(ShellAt(k as u32)).unwrap()
}

/// All that fails in the shells of a solid. It goes once over the uses of each.
pub fn all_faults(alloc: Global, solid: &Solid) -> Result<AllFaults, NoMemory>
    ensures { IfOk result (λ all. AreAllFaults solid.now all) }
{
    let count = solid.shell_count();
    let mut all = ItemList::with_room(alloc, count)?;
    let mut below = 0;
    'shells: for k in 0..count {
        let at = ShellAt(k as u32);
        let rows = rows(alloc, solid, at)?;
        all.push(faults_of(alloc, solid, at, &rows, below)?)?;
        below = below_next(below, &rows);
    }
    Ok(all)
}

/// For each shell of a solid the number that the vertices of the shells before it lie below.
pub fn belows(alloc: Global, solid: &Solid) -> Result<ItemList<usize>, NoMemory>
    ensures { IfOk result (λ belows. EachBelow solid.now belows) }
{
    let count = solid.shell_count();
    let mut belows = ItemList::with_room(alloc, count)?;
    let mut below = 0;
    'shells: for k in 0..count {
        belows.push(below)?;
        let rows = rows(alloc, solid, ShellAt(k as u32))?;
        below = below_next(below, &rows);
    }
    Ok(belows)
}

// True where links weren't judged too: then something else fails.
fn none_unlinked(linking: Option<&Linking>) -> bool
    ensures { result ≡ none_unlinked (option_copied linking.entry) }
{
    match linking {
        None => true,
        Some(linking) => linking.unlinked().is_empty(),
    }
}

fn is_failing(faults: &ShellFaults) -> bool
    ensures { result ≡ is_failing faults.now }
{
    !(faults.gaps().is_empty()
        && faults.unpaired().is_empty()
        && faults.apart_count() == 0
        && none_unlinked(faults.linking())
        && faults.shared().is_empty())
}

fn push_if(list: &mut Vec<u32>, wanted: bool, k: u32) -> Result<(), NoMemory>
    ensures { OnOk result (list.new.items ≡ list.old.items ++ (if wanted then k ∷ [] else [])) }
{
    if wanted {
        list.push(k)?;
    }
    Ok(())
}

/// The numbers of the shells in which a rule fails, from 0.
#[tactic(auto, unfolding(crate::specs::AllFaults::failing_shells))]
pub fn failing_shells(alloc: Global, all: &AllFaults) -> Result<Vec<u32>, NoMemory>
    requires { length all.now < PART_LIMIT }
    ensures { IfOk result (λ list. list.items ≡ failing_shells all.now) }
{
    let faults = all.as_slice();
    let mut list = Vec::new(alloc);
    'shells: for k in 0..faults.len() {
        push_if(&mut list, is_failing(&faults[k]), k as u32)?;
    }
    Ok(list)
}
