//! The remedies that are taken, one of each shell.

ghost use Rattle.solid_mend.specs.Mended.{IsTakenOf};
ghost use Rattle.std.specs.List.{AllZip};
ghost use Rattle.std.specs.Prelude.{Contains, IfOk, IfSome};

use crate::copies::copied_change;
use crate::shells::ShellRemedies;
use iges_base::{ItemList, NoMemory};
use shell_change::{Change, Remedy};
use std::alloc::Global;

/// The number of the remedy that is taken of a shell: this one, or the first where the shell has fewer.
pub(crate) fn number_of(found: &ShellRemedies, wanted: usize) -> usize {
    if wanted <= found.remedies.len() {
        wanted
    } else {
        1
    }
}

/// The remedy that is taken of a shell, if it has any.
pub(crate) fn remedy_of(found: &ShellRemedies, wanted: usize) -> Option<&Remedy>
    ensures { IfSome result (λ remedy. Contains found.now.remedies remedy.now) }
{
    let number = number_of(found, wanted);
    if number == 0 {
        return None;
    }
    found.remedies.get(number - 1)
}

// A copy of it. None where the shell has none, or where it needs a new face.
fn change_of(
    alloc: Global,
    found: &ShellRemedies,
    wanted: usize,
) -> Result<Option<Change>, NoMemory>
    ensures { IfOk result (λ taken. IfSome taken (IsTakenOf found.now)) }
{
    let Some(remedy) = remedy_of(found, wanted) else {
        return Ok(None);
    };
    if remedy.change.rims.len() > 0 {
        return Ok(None);
    }
    let change = copied_change(alloc, &remedy.change)?;
    Ok(Some(change))
}

/// The changes that are taken, one of each shell. None where a shell has none, or where one needs a new face.
pub(crate) fn changes_of(
    alloc: Global,
    found: &[ShellRemedies],
    wanted: usize,
) -> Result<Option<ItemList<Change>>, NoMemory>
    ensures { IfOk result (λ taken. IfSome taken (AllZip IsTakenOf found.now)) }
{
    let mut changes = ItemList::new(alloc);
    'shells: for i in 0..found.len() {
        let Some(change) = change_of(alloc, &found[i], wanted)? else {
            return Ok(None);
        };
        changes.push(change)?;
    }
    Ok(Some(changes))
}

/// The numbers of the remedies that are taken.
pub(crate) fn numbers_of(
    alloc: Global,
    found: &[ShellRemedies],
    wanted: usize,
) -> Result<Vec<usize>, NoMemory> {
    let mut numbers = Vec::new(alloc);
    'shells: for i in 0..found.len() {
        numbers.push(number_of(&found[i], wanted))?;
    }
    Ok(numbers)
}

/// Whether each shell has a remedy.
pub(crate) fn all_have(found: &[ShellRemedies]) -> bool {
    'shells: for i in 0..found.len() {
        if found[i].remedies.len() == 0 {
            return false;
        }
    }
    true
}

fn rims_of(found: &ShellRemedies, wanted: usize) -> usize {
    match remedy_of(found, wanted) {
        Some(remedy) => remedy.change.rims.len(),
        None => 0,
    }
}

/// How many faces must be made anew for the remedies that are taken.
pub(crate) fn faces_needed(found: &[ShellRemedies], wanted: usize) -> usize {
    let mut count: usize = 0;
    'shells: for i in 0..found.len() {
        count = count.saturating_add(rims_of(&found[i], wanted));
    }
    count
}

fn is_sure(found: &ShellRemedies) -> bool {
    match remedy_of(found, 1) {
        Some(remedy) => remedy.sure,
        None => false,
    }
}

/// Whether the first remedy of each shell is sure.
pub(crate) fn all_sure(found: &[ShellRemedies]) -> bool {
    'shells: for i in 0..found.len() {
        if !is_sure(&found[i]) {
            return false;
        }
    }
    true
}
