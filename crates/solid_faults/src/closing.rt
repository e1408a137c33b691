//! Whether a solid is closed.

ghost use Rattle.std.specs.Prelude.{◌≡◌, ◌↔◌, ◌<◌, ◌^◌, IsTrue, length, Some, slice_get, IfOk, false, ℕ};
ghost use Rattle.edge_uses.specs.Before.{AreBelow};
ghost use Rattle.shell_rules.specs.Closed.{IsClosedSolid};
ghost use Rattle.edge_uses.specs.ShellRows.{rows_of};

use crate::failing::faults_of;
use crate::shared::below_next;
use edge_uses::rows;
use iges_base::NoMemory;
use solid_data::{ShellAt, Solid};
use std::alloc::Global;

/// Whether each shell of a solid is closed: whether nothing fails in it.
pub fn is_closed(alloc: Global, solid: &Solid) -> Result<bool, NoMemory>
    ensures { IfOk result (λ b. IsTrue b ↔ IsClosedSolid solid.now) }
{
    let mut below = 0;
    'shells: for k in 0..solid.shell_count() {
        let at = ShellAt(k as u32);
        let rows = rows(alloc, solid, at)?;
        let faults = faults_of(alloc, solid, at, &rows, below)?;
        if !faults.is_empty() {
            return Ok(false);
        }
        below = below_next(below, &rows);
    }
    Ok(true)
}
