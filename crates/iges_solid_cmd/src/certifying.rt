//! The replies to `certify`: the certificate of one solid, or the book of all.

ghost use Rattle.brep_walk.specs.Places.{places};
ghost use Rattle.brep_walk.specs.SolidOf.{solid_of};
ghost use Rattle.iges_params.specs.Contents.{Contents};
ghost use Rattle.iges_solid_cmd.specs.Due.{OfCertify, OfCertifyAll};
ghost use Rattle.solid_data.specs.Obligations.{AllHold};
ghost use Rattle.std.specs.Prelude.{◌≡◌, ℕ, IfOk};

use brep_walk::{WalkFault, walk};
use cert_maker::{BookFault, MakeFault, certify, certify_all};
use command_replies::{Answer, Reply, failed, no_solid, solid_failed, too_large};
use iges_base::{EntryNo, NoMemory};
use iges_params::File;
use solid_data::Solid;
use std::alloc::Global;
use topo_certificate::{write_book, write_certificate};

// The certificate of a solid that is closed, or the first rule on its shells that fails.
fn closed_reply(alloc: Global, solid: &Solid) -> Result<Reply, NoMemory>
    ensures { (f : Contents) (n : ℕ) → AllHold (places f n) → solid.now ≡ solid_of f n
        → IfOk result (λ reply. OfCertify n f reply.answer reply.text) }
{
    let certificate = match certify(alloc, solid) {
        Ok(certificate) => certificate,
        Err(MakeFault::Fails(failing)) => return failed(alloc, failing),
        Err(MakeFault::NoMemory) => return Err(NoMemory),
    };
    Ok(Reply {
        answer: Answer::Done,
        text: write_certificate(alloc, &certificate)?,
    })
}

/// The certificate of a solid that is closed, or the first rule that fails.
pub fn certify_solid(alloc: Global, file: File, no: u32) -> Result<Reply, NoMemory>
    ensures { IfOk result (λ reply. OfCertify no file reply.answer reply.text) }
{
    let memory = file.memory();
    let walked = walk(alloc, &file, EntryNo(no));
    // Where memory is given back, the certificate needs the room that the file takes.
    memory.release(file);
    let solid = match walked {
        Ok(solid) => solid,
        Err(WalkFault::Fails(failing)) => return failed(alloc, failing),
        Err(WalkFault::NoMemory) => return Err(NoMemory),
    };
    let reply = closed_reply(alloc, &solid);
    memory.release(solid);
    reply
}

/// The book with a certificate for each solid of the file, or why there is none: no solid, the first that fails, or too many
/// loop uses.
pub fn certify_solids(alloc: Global, file: File) -> Result<Reply, NoMemory>
    ensures { IfOk result (λ reply. OfCertifyAll file reply.answer reply.text) }
{
    let parts = match certify_all(alloc, &file) {
        Ok(parts) => parts,
        Err(BookFault::NoSolid) => return no_solid(alloc),
        Err(BookFault::Fails { solid, failing }) => return solid_failed(alloc, solid, failing),
        Err(BookFault::TooMany { .. }) => return Ok(too_large()),
        Err(BookFault::NoMemory) => return Err(NoMemory),
    };
    // Where memory is given back, the text needs the room that the file takes.
    file.memory().release(file);
    Ok(Reply {
        answer: Answer::Done,
        text: write_book(alloc, &parts)?,
    })
}
