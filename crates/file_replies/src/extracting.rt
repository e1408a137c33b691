//! The reply to `extract`.

ghost use Rattle.file_replies.specs.Due.{OfExtract};
ghost use Rattle.std.specs.Prelude.{IfOk};

use crate::refusing::refused;
use crate::writing::written;
use command_replies::Reply;
use iges_base::{EntryNo, NoMemory};
use iges_params::File;
use solid_extract::{ExtractFault, into_extract};
use std::alloc::Global;

/// The file of a solid alone, with all that it refers to, or why there is none.
pub fn extract_solid(alloc: Global, file: File, no: u32) -> Result<Reply, NoMemory>
    ensures { IfOk result (λ reply. OfExtract no file reply.answer reply.text) }
{
    let extracted = match into_extract(alloc, file, EntryNo(no)) {
        Ok(extracted) => extracted,
        Err(ExtractFault::Refused { entity, reason }) => return refused(alloc, entity, reason),
        Err(ExtractFault::NoMemory) => return Err(NoMemory),
    };
    written(alloc, extracted)
}
