//! The reply to `reorient`.

ghost use Rattle.repair_commands.specs.SolidDue.{OfReorient};
ghost use Rattle.solid_reorient.specs.Fitting.{HasFlags};
ghost use Rattle.std.specs.Prelude.{IfOk};

use brep_walk::{WalkFault, walk};
use command_replies::{Reply, failed};
use file_replies::{refused, written};
use flag_choice::{FlagLists, fitting_flags};
use iges_base::{EntryNo, NoMemory};
use iges_params::File;
use orient_commands::orient_walked;
use solid_extract::ExtractFault;
use solid_reorient::into_reorient;
use std::alloc::Global;

// The file of a solid alone with these face flags, or why there is none.
fn with_flags(alloc: Global, file: File, no: u32, flags: &FlagLists) -> Result<Reply, NoMemory>
    requires { HasFlags file no flags.now }
    ensures { IfOk result (λ reply. OfReorient no file reply.answer reply.text) }
{
    let reoriented = match into_reorient(alloc, file, EntryNo(no), flags) {
        Ok(reoriented) => reoriented,
        Err(ExtractFault::Refused { entity, reason }) => return refused(alloc, entity, reason),
        Err(ExtractFault::NoMemory) => return Err(NoMemory),
    };
    written(alloc, reoriented)
}

/// The file of a solid alone, with face flags under which each edge is used in opposite directions, or why there is none.
pub fn reorient_solid(alloc: Global, file: File, no: u32) -> Result<Reply, NoMemory>
    ensures { IfOk result (λ reply. OfReorient no file reply.answer reply.text) }
{
    let solid = match walk(alloc, &file, EntryNo(no)) {
        Ok(solid) => solid,
        Err(WalkFault::Fails(failing)) => return failed(alloc, failing),
        Err(WalkFault::NoMemory) => return Err(NoMemory),
    };
    let Some(flags) = fitting_flags(alloc, &solid)? else {
        drop(file);
        return orient_walked(alloc, &solid);
    };
    drop(solid);
    with_flags(alloc, file, no, &flags)
}
