//! Orienting a solid of a file.

ghost use Rattle.std.specs.Prelude.{◌≡◌, IfOk};
ghost use Rattle.orient_commands.specs.Due.{IsOwedOf, OfOrient, orient_fail_line};
ghost use Rattle.command_replies.specs.declared.answer.Answer.TheVariants as answer;

use crate::making::orientation;
use brep_walk::{WalkFault, walk};
use command_replies::{Reply, failed, failed_by};
use face_orient::{OrientFailing, OrientFault};
use iges_base::{EntryNo, NoMemory};
use iges_params::File;
use solid_data::Solid;
use std::alloc::Global;

/// The reply for a rule that fails of a shell.
pub(crate) fn shell_failed(alloc: Global, failing: OrientFailing) -> Result<Reply, NoMemory>
    ensures { IfOk result (λ reply. (reply.answer ≡ answer.No)
        × (reply.text ≡ orient_fail_line failing)) }
{
    failed_by(alloc, failing.rule.name(), failing.entity, failing.place)
}

/// An orientation of a solid that was walked: for each shell flags for its faces, the first face's its own, under which
/// the two uses of each edge run in opposite directions, or a ring of rows that no flags satisfy. It is Done where all
/// shells have flags. What first fails of a shell is reported instead. It errs only where memory runs out.
pub fn orient_walked(alloc: Global, solid: &Solid) -> Result<Reply, NoMemory>
    ensures { IfOk result (λ reply. IsOwedOf solid.now reply.answer reply.text) }
{
    match orientation(alloc, solid) {
        Ok(reply) => Ok(reply),
        Err(OrientFault::Fails(failing)) => shell_failed(alloc, failing),
        Err(OrientFault::NoMemory) => Err(NoMemory),
    }
}

/// An orientation of a solid of a file, or what is first false of its records. The file's room is given back before the
/// shells are oriented. It errs only where memory runs out.
pub fn orient_solid(alloc: Global, file: File, no: u32) -> Result<Reply, NoMemory>
    ensures { IfOk result (λ reply. OfOrient no file reply.answer reply.text) }
{
    let solid = match walk(alloc, &file, EntryNo(no)) {
        Ok(solid) => solid,
        Err(WalkFault::Fails(failing)) => return failed(alloc, failing),
        Err(WalkFault::NoMemory) => return Err(NoMemory),
    };
    file.memory().release(file);
    orient_walked(alloc, &solid)
}
