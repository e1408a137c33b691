//! The solid that a certificate names.

ghost use Rattle.std.specs.Prelude.{◌≡◌, IfOk, IfErr, OnOk};
ghost use Rattle.brep_walk.specs.SolidOf.{solid_of};
ghost use Rattle.solid_data.specs.Obligations.{AllHold};
ghost use Rattle.cert_accept.specs.Accepted.{checked};
ghost use Rattle.shell_rules.specs.Faults.{IsCheckFault};

use brep_walk::{WalkFault, walk};
use iges_base::EntryNo;
use iges_params::File;
use shell_rules::{CheckFault, check_shells};
use solid_data::Solid;
use std::alloc::Global;

/// The solid of an entry, where all holds of it that the lines of a certificate don't show: the rules on its records, that
/// its loops join, and that its shells share no vertex. Errs with the first of these that fails. The file's room is given
/// back before the shells are judged.
pub fn checked_solid(alloc: Global, file: File, no: EntryNo) -> Result<Solid, CheckFault>
    ensures solid { IfOk result (λ s. s ≡ solid_of file no.0) }
    ensures holds { OnOk result (AllHold (checked file no.0)) }
    ensures fault { IfErr result (IsCheckFault (checked file no.0)) }
{
    let solid = match walk(alloc, &file, no) {
        Ok(solid) => solid,
        Err(WalkFault::Fails(failing)) => return Err(CheckFault::Fails(failing)),
        Err(WalkFault::NoMemory) => return Err(CheckFault::NoMemory),
    };
    drop(file);
    check_shells(alloc, &solid)?;
    Ok(solid)
}
