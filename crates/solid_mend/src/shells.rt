//! The remedies of the shells that fail.

ghost use Rattle.edge_uses.specs.Before.{AreBelow};
ghost use Rattle.edge_uses.specs.ShellRows.{rows_of};
ghost use Rattle.solid_data.specs.declared.solid.Shell.{Shell as AnyShell};
ghost use Rattle.solid_mend.specs.Failing.{Keeps, OneEach, SoFar};
ghost use Rattle.solid_mend.specs.Mended.{AreRemediesOf, AreTriedOf, shell_of_remedies};
ghost use Rattle.std.specs.Prelude.{◌≡◌, ◌↔◌, ◌<◌, ◌+◌, All, IfOk, IsTrue, OnOk, Some, length, slice_get};

use edge_uses::{Rows, rows};
use iges_base::{ItemList, NoMemory};
use iges_params::File;
use shell_change::{Known, Remedy};
use solid_data::{ShellAt, Solid};
use solid_faults::{below_next, faults_of};
use solid_geometry::known_of;
use std::alloc::Global;
use tried_remedies::tried_before;

/// The remedies of a shell that fails.
#[derive(Drop)]
pub struct ShellRemedies {
    pub shell: ShellAt,
    pub remedies: ItemList<Remedy>,
}

// Whether a shell keeps all rules.
fn keeps(
    alloc: Global,
    solid: &Solid,
    at: ShellAt,
    rows: &Rows,
    below: usize,
) -> Result<bool, NoMemory>
    requires shell { at.0 < length solid.now.shells }
    requires rows { rows.now ≡ rows_of solid.now (slice_get solid.now.shells at.0) }
    requires below { AreBelow solid.now at.0 below }
    ensures { IfOk result (λ b. (h : AnyShell) → slice_get solid.now.shells at.0 ≡ Some h
        → IsTrue b ↔ Keeps solid.now (at.0, h)) }
{
    solid.recall_numbering();
    let faults = faults_of(alloc, solid, at, rows, below)?;
    Ok(faults.is_empty())
}

// Puts the remedies of a shell, if it fails.
fn put_shell(
    found: &mut Vec<ShellRemedies>,
    alloc: Global,
    solid: &Solid,
    known: &Known,
    shell: ShellAt,
    rows: &Rows,
    below: usize,
) -> Result<(), NoMemory>
    requires shell { shell.0 < length solid.now.shells }
    requires rows { rows.now ≡ rows_of solid.now (slice_get solid.now.shells shell.0) }
    requires below { AreBelow solid.now shell.0 below }
    ensures failing { OnOk result (SoFar shell_of_remedies solid.now shell.0 found.old.items
        → SoFar shell_of_remedies solid.now (shell.0 + 1) found.new.items) }
    ensures tried { OnOk result (All (AreTriedOf solid.now known.now.geometry) found.old.items
        → All (AreTriedOf solid.now known.now.geometry) found.new.items) }
{
    if keeps(alloc, solid, shell, rows, below)? {
        return Ok(());
    }
    let remedies = tried_before(alloc, solid, known, shell, below)?;
    found.push(ShellRemedies { shell, remedies })?;
    Ok(())
}

fn remedies_by(alloc: Global, solid: &Solid, known: &Known) -> Result<Vec<ShellRemedies>, NoMemory>
    ensures failing { IfOk result (λ xs. OneEach shell_of_remedies solid.now xs.items) }
    ensures tried { IfOk result (λ xs. All
        (AreTriedOf solid.now known.now.geometry) xs.items) }
{
    solid.recall_numbering();
    let mut found = Vec::new(alloc);
    let mut below = 0;
    'shells: for k in 0..solid.shell_count() {
        let shell = ShellAt(k as u32);
        let rows = rows(alloc, solid, shell)?;
        put_shell(&mut found, alloc, solid, known, shell, &rows, below)?;
        below = below_next(below, &rows);
    }
    Ok(found)
}

/// The remedies of each shell of a solid of a file that fails, in order.
pub(crate) fn remedies_of(
    alloc: Global,
    file: &File,
    solid: &Solid,
) -> Result<Vec<ShellRemedies>, NoMemory>
    ensures { IfOk result (λ xs. AreRemediesOf file.now solid.now xs.items) }
{
    let known = known_of(alloc, file, solid)?;
    let found = remedies_by(alloc, solid, &known)?;
    Ok(found)
}
