//! Certifying an open shell.

ghost use Rattle.std.specs.Prelude.{IfOk};
ghost use Rattle.open_commands.specs.Due.{OfOpen};

use brep_walk::{WalkFault, walk_shell};
use command_replies::{Answer, Reply, failed, failed_by};
use iges_base::{EntryNo, NoMemory};
use iges_params::File;
use open_shells::{OpenFault, open_certify, write_open};
use std::alloc::Global;

/// The certificate of a shell that is sound as an open one, or the first rule that fails: on its records, then JOIN of the
/// loops, EDGE of the edges, REACH of the faces and FAN of the vertices. It errs only where memory runs out.
pub fn certify_shell(alloc: Global, file: File, no: u32) -> Result<Reply, NoMemory>
    ensures { IfOk result (λ reply. OfOpen no file reply.answer reply.text) }
{
    let walked = walk_shell(alloc, &file, EntryNo(no));
    // Where memory is given back, the certificate needs the room that the file takes.
    file.memory().release(file);
    let solid = match walked {
        Ok(solid) => solid,
        Err(WalkFault::Fails(failing)) => return failed(alloc, failing),
        Err(WalkFault::NoMemory) => return Err(NoMemory),
    };
    let certificate = match open_certify(alloc, &solid) {
        Ok(certificate) => certificate,
        Err(OpenFault::Fails(failing)) => {
            return failed_by(alloc, failing.rule.name(), failing.entity, failing.place);
        }
        Err(OpenFault::NoMemory) => return Err(NoMemory),
    };
    Ok(Reply {
        answer: Answer::Done,
        text: write_open(alloc, &certificate)?,
    })
}
