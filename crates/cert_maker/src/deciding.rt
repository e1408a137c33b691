//! The verdict on a solid of a file.

ghost use Rattle.std.specs.Prelude.{◌≡◌, IfOk};
ghost use Rattle.solid_data.specs.Obligations.{IsVerdict};
ghost use Rattle.solid_data.specs.declared.verdict.Verdict.{Verdict as Word};
ghost use Rattle.shell_rules.specs.ShellObligations.{solid_obligations};
ghost use Rattle.solid_verdict.specs.Closed.{IsVerdictOn};

use crate::fault::MakeFault;
use crate::making::certify;
use brep_walk::{WalkFault, walk};
use iges_base::{EntryNo, NoMemory};
use iges_params::File;
use solid_data::{Solid, Verdict};
use std::alloc::Global;

/// The verdict on the shells of a solid alone.
fn shells_verdict(alloc: Global, solid: &Solid) -> Result<Verdict, NoMemory>
    ensures { IfOk result (IsVerdict (solid_obligations solid.now)) }
{
    match certify(alloc, solid) {
        Ok(_) => Ok(Verdict::Closed),
        Err(MakeFault::Fails(failing)) => Ok(Verdict::Fails(failing)),
        Err(MakeFault::NoMemory) => Err(NoMemory),
    }
}

/// The verdict on the solid of an entry: closed, or the first rule that fails, with the entity and its item that break
/// it. The rules on records and their places come before those on shells.
pub fn verdict(alloc: Global, file: &File, no: EntryNo) -> Result<Verdict, NoMemory>
    ensures verdict { IfOk result (IsVerdictOn file.now no.0) }
    ensures only { (v : Word) → IsVerdictOn file.now no.0 v → IfOk result (λ w. w ≡ v) }
{
    match walk(alloc, file, no) {
        Ok(solid) => shells_verdict(alloc, &solid),
        Err(WalkFault::Fails(failing)) => Ok(Verdict::Fails(failing)),
        Err(WalkFault::NoMemory) => Err(NoMemory),
    }
}
