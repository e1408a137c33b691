//! The shell that a certificate names.

ghost use Rattle.std.specs.Prelude.{◌≡◌, IfErr, IfOk, OnOk};
ghost use Rattle.brep_walk.specs.OpenPlaces.{shell_solid_of};
ghost use Rattle.open_commands.specs.Verdict.{open_checked};
ghost use Rattle.shell_rules.specs.Faults.{IsCheckFault};
ghost use Rattle.solid_data.specs.Obligations.{AllHold};

use brep_walk::{WalkFault, walk_shell};
use iges_base::EntryNo;
use iges_params::File;
use shell_rules::{CheckFault, join, shell_at};
use solid_data::{ShellAt, Solid};
use std::alloc::Global;

/// The shell of an entry as a solid, where all holds of it that the lines of a certificate don't show: the rules on its
/// records, and that its loops join. Errs with the first of these that fails. The file's room is given back before the
/// loops are judged.
pub(crate) fn checked_shell(alloc: Global, file: File, no: EntryNo) -> Result<Solid, CheckFault>
    ensures solid { IfOk result (λ s. s ≡ shell_solid_of file no.0) }
    ensures holds { OnOk result (AllHold (open_checked file no.0)) }
    ensures fault { IfErr result (IsCheckFault (open_checked file no.0)) }
{
    let solid = match walk_shell(alloc, &file, no) {
        Ok(solid) => solid,
        Err(WalkFault::Fails(failing)) => return Err(CheckFault::Fails(failing)),
        Err(WalkFault::NoMemory) => return Err(CheckFault::NoMemory),
    };
    drop(file);
    let first = ShellAt(0);
    join(&solid, first, shell_at(&solid, first))?;
    Ok(solid)
}
