//! The solid that a certificate or a part of a book names, or the reply that a rule fails.

ghost use Rattle.brep_walk.specs.SolidOf.{solid_of};
ghost use Rattle.certificate_commands.specs.Judging.{IsChecked, TellsFalse};
ghost use Rattle.command_replies.specs.Texts.{fail_line, solid_fail_text};
ghost use Rattle.cert_accept.specs.Accepted.{checked};
ghost use Rattle.shell_rules.specs.Faults.{IsCheckFault};
ghost use Rattle.solid_data.specs.Obligations.{AllHold};
ghost use Rattle.std.specs.Prelude.{◌≡◌, IfErr, IfOk, MatchResult, OnOk};

use brep_walk::{WalkFault, Walker};
use cert_accept::checked_solid;
use command_replies::{Reply, failed, solid_failed};
use iges_base::{EntryNo, NoMemory};
use iges_params::File;
use shell_rules::{CheckFault, check_shells};
use solid_data::Solid;
use std::alloc::Global;

/// The solid that a certificate of one solid names, where all that its lines don't show holds of it; else the reply.
/// The file's room is given back.
pub fn named_solid(alloc: Global, file: File, no: EntryNo) -> Result<Result<Solid, Reply>, NoMemory>
    ensures { IfOk result (λ r. MatchResult r (IsChecked file no.0)
        (TellsFalse fail_line file no.0)) }
{
    match checked_solid(alloc, file, no) {
        Ok(solid) => Ok(Ok(solid)),
        Err(CheckFault::Fails(failing)) => Ok(Err(failed(alloc, failing)?)),
        Err(CheckFault::NoMemory) => Err(NoMemory),
    }
}

// The solid of a file that is read further, where all holds of it that the lines of a certificate don't show.
fn walked_solid(alloc: Global, walker: &mut Walker<'_>, no: EntryNo) -> Result<Solid, CheckFault>
    ensures file { walker.new ≡ walker.old }
    ensures solid { IfOk result (λ s. s ≡ solid_of walker.old no.0) }
    ensures holds { OnOk result (AllHold (checked walker.old no.0)) }
    ensures fault { IfErr result (IsCheckFault (checked walker.old no.0)) }
{
    let solid = match walker.walk(alloc, no) {
        Ok(solid) => solid,
        Err(WalkFault::Fails(failing)) => return Err(CheckFault::Fails(failing)),
        Err(WalkFault::NoMemory) => return Err(CheckFault::NoMemory),
    };
    check_shells(alloc, &solid)?;
    Ok(solid)
}

/// The solid that a part of a book names, where all that its lines don't show holds of it; else the reply. The walker
/// serves for further parts.
pub fn part_solid(
    alloc: Global,
    walker: &mut Walker<'_>,
    no: EntryNo,
) -> Result<Result<Solid, Reply>, NoMemory>
    ensures file { walker.new ≡ walker.old }
    ensures found { IfOk result (λ r. MatchResult r (IsChecked walker.old no.0)
        (TellsFalse (solid_fail_text no.0) walker.old no.0)) }
{
    match walked_solid(alloc, walker, no) {
        Ok(solid) => Ok(Ok(solid)),
        Err(CheckFault::Fails(failing)) => Ok(Err(solid_failed(alloc, no, failing)?)),
        Err(CheckFault::NoMemory) => Err(NoMemory),
    }
}
