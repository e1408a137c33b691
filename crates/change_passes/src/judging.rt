//! Whether pieces are closed.

ghost use Rattle.std.specs.Prelude.{◌≡◌, ◌<◌, ◌+◌, IsTrue, IfOk, Some, [], length, slice_get, option_copied};
ghost use Rattle.edge_uses.specs.Before.{AreBelow};
ghost use Rattle.edge_uses.specs.ShellRows.{rows_of};
ghost use Rattle.shell_change.specs.Matching.{EachAt};
ghost use Rattle.shell_rules.specs.Closed.{IsClosedShell};
ghost use Rattle.solid_data.specs.declared.solid.Shell.{Shell as AnyShell};
ghost use Rattle.solid_faults.specs.Faults.{AreLinked, IsFaultless};
ghost use Rattle.change_passes.specs.Passes.{pieces_before};
ghost use Rattle.change_passes.specs.Alone.{alone};

use edge_uses::rows;
use iges_base::NoMemory;
use solid_data::{ShellAt, Solid};
use solid_faults::{Linking, ShellFaults, below_next, faults_of};
use std::alloc::Global;

fn are_linked(linking: Option<&Linking>) -> bool
    ensures { IsTrue result → AreLinked (option_copied linking.entry) }
{
    match linking {
        None => false,
        Some(linking) => linking.unlinked().is_empty(),
    }
}

// Whether nothing fails but that vertices are those of an earlier shell.
fn is_closed_alone(faults: &ShellFaults) -> bool
    ensures { IsTrue result → IsFaultless (alone faults.now) }
{
    faults.gaps().is_empty()
        && faults.unpaired().is_empty()
        && faults.apart_count() == 0
        && are_linked(faults.linking())
}

// Whether a piece is closed. Of the outer shell each piece becomes a solid of its own.
fn is_closed_piece(faults: &ShellFaults, of: ShellAt) -> bool
    ensures outer { IsTrue result → of.0 ≡ 0 → IsFaultless (alone faults.now) }
    ensures void { IsTrue result → 0 < of.0 → IsFaultless faults.now }
{
    if of.0 == 0 {
        is_closed_alone(faults)
    } else {
        faults.is_empty()
    }
}

/// Whether the pieces of a shell are closed.
pub(crate) fn are_closed(alloc: Global, pieces: &Solid, of: ShellAt) -> Result<bool, NoMemory>
    ensures { IfOk result (λ closed. IsTrue closed
        → EachAt (λ piece h. IsClosedShell pieces.now (pieces_before of.0 piece) h) pieces.now.shells) }
{
    let mut below = 0;
    'pieces: for k in 0..pieces.shell_count() {
        let at = ShellAt(k as u32);
        let rows = rows(alloc, pieces, at)?;
        let faults = faults_of(alloc, pieces, at, &rows, below)?;
        if !is_closed_piece(&faults, of) {
            return Ok(false);
        }
        below = below_next(below, &rows);
    }
    Ok(true)
}
