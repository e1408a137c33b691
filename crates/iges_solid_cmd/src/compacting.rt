//! The reply to `compact`.

ghost use Rattle.iges_solid_cmd.specs.Due.{OfCompact};
ghost use Rattle.std.specs.Prelude.{IfOk};

use command_replies::{Reply, failed};
use file_replies::{refused, written};
use iges_base::{EntryNo, NoMemory};
use iges_params::File;
use list_compact::{CompactFault, into_compact};
use std::alloc::Global;

/// The file of a solid alone, whose lists of edges and of vertices hold only what is used, or why there is none.
pub fn compact_solid(alloc: Global, file: File, no: u32) -> Result<Reply, NoMemory>
    ensures { IfOk result (λ reply. OfCompact no file reply.answer reply.text) }
{
    let compacted = match into_compact(alloc, file, EntryNo(no)) {
        Ok(compacted) => compacted,
        Err(CompactFault::Refused { entity, reason }) => return refused(alloc, entity, reason),
        Err(CompactFault::Fails(failing)) => return failed(alloc, failing),
        Err(CompactFault::NoMemory) => return Err(NoMemory),
    };
    written(alloc, compacted)
}
