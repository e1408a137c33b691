//! COUNT of all shells.

ghost use Rattle.std.specs.Prelude.{IfErr, OnOk};
ghost use Rattle.orient_certificate.specs.Outcome.{IsFault};
ghost use Rattle.orient_commands.specs.Shells.{IsCounted, OfAllShells, IsFirstUncounted};

use face_orient::{OrientChecker, OrientFault};
use solid_data::{ShellAt, Solid};
use std::alloc::Global;

/// Judges COUNT shell by shell.
pub(crate) fn count_shells(alloc: Global, solid: &Solid) -> Result<(), OrientFault>
    ensures holds { OnOk result (OfAllShells IsCounted solid.now) }
    ensures fault { IfErr result (IsFault (IsFirstUncounted solid.now)) }
{
    'shells: for k in 0..solid.shell_count() {
        let _checker = OrientChecker::new(alloc, solid, ShellAt(k as u32))?;
    }
    Ok(())
}
