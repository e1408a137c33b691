//! What each change makes of a file's records, one after the other.

ghost use Rattle.changed_file.specs.Changing.{drafted, with_change, with_changes, with_gone, with_uses, with_voids};
ghost use Rattle.changed_file.specs.Folds.{fold_items};
ghost use Rattle.std.specs.Prelude.{◌≡◌, IfOk, OnOk};

use crate::draft::{Draft, blank_draft, put_values};
use crate::faces::{pieces_of, put_all_loops, put_all_removed, put_all_removed_loops};
use crate::new_entries::{put_lists, put_pieces};
use changed_records::{ChangeFault, solid_values};
use iges_params::File;
use shell_change::Change;
use solid_data::{Shell, Solid};
use std::alloc::Global;

fn put_uses(
    draft: &mut Draft,
    alloc: Global,
    file: &File,
    solid: &Solid,
    change: &Change,
    shell: &Shell,
) -> Result<(), ChangeFault>
    ensures { OnOk result (draft.new
        ≡ with_uses file.now solid.now change.now shell.now draft.old) }
{
    let lists = put_lists(&mut draft.added, alloc, file, solid, change)?;
    let fates = change.faces.as_slice();
    let faces = shell.faces.as_slice();
    put_all_loops(&mut draft.slots, alloc, file, solid, lists, fates, faces)
}

fn put_gone(draft: &mut Draft, change: &Change, shell: &Shell) -> Result<(), ChangeFault>
    ensures { OnOk result (draft.new ≡ with_gone change.now shell.now draft.old) }
{
    let fates = change.faces.as_slice();
    let faces = shell.faces.as_slice();
    put_all_removed(&mut draft.faces, fates, faces)?;
    put_all_removed_loops(&mut draft.loops, fates, faces)
}

#[tactic(auto, unfolding(crate::specs::Changing::with_change))]
fn put_change(
    draft: &mut Draft,
    alloc: Global,
    file: &File,
    solid: &Solid,
    change: &Change,
) -> Result<(), ChangeFault>
    ensures { OnOk result (draft.new ≡ with_change file.now solid.now draft.old change.now) }
{
    let Some(shell) = solid.shell(change.shell) else {
        return Err(ChangeFault::Unfit);
    };
    let pieces = pieces_of(alloc, change.faces.as_slice(), shell.faces.as_slice())?;
    put_uses(draft, alloc, file, solid, change, shell)?;
    put_pieces(
        draft,
        alloc,
        file,
        solid,
        change.shell,
        shell,
        pieces.as_slice(),
    )?;
    put_gone(draft, change, shell)
}

fn put_changes(
    draft: &mut Draft,
    alloc: Global,
    file: &File,
    solid: &Solid,
    changes: &[Change],
) -> Result<(), ChangeFault>
    ensures { OnOk result (draft.new
        ≡ fold_items (with_change file.now solid.now) draft.old changes.now) }
{
    'changes: for i in 0..changes.len() {
        put_change(draft, alloc, file, solid, &changes[i])?;
    }
    Ok(())
}

fn put_voids(
    draft: &mut Draft,
    alloc: Global,
    file: &File,
    solid: &Solid,
) -> Result<(), ChangeFault>
    ensures { OnOk result (draft.new ≡ with_voids file.now solid.now draft.old draft.old.voids) }
{
    if draft.voids.len() == 0 {
        return Ok(());
    }
    let Some(values) = file.values(solid.entity()) else {
        return Err(ChangeFault::Unfit);
    };
    let new = solid_values(alloc, values, draft.voids.as_slice())?;
    put_values(&mut draft.slots, solid.entity(), new)
}

/// What changes of shells make of a file's records.
#[tactic(auto, unfolding(crate::specs::Changing::drafted))]
pub(crate) fn drafted(
    alloc: Global,
    file: &File,
    solid: &Solid,
    changes: &[Change],
) -> Result<Draft, ChangeFault>
    ensures { IfOk result (λ draft. draft ≡ drafted file.now solid.now changes.now) }
{
    let mut draft = blank_draft(alloc, file)?;
    put_changes(&mut draft, alloc, file, solid, changes)?;
    put_voids(&mut draft, alloc, file, solid)?;
    Ok(draft)
}
