//! A sample solid taken through all steps: written, read, walked, certified and checked.

ghost use Rattle.brep_walk.specs.SolidOf.{solid_of};
ghost use Rattle.cert_maker.specs.Certified.{IsCertificateText};
ghost use Rattle.iges_base.specs.declared.TheConstants.{FILE_LIMIT};
ghost use Rattle.iges_solid_cmd.specs.Due.{OfSample};
ghost use Rattle.iges_solid_cmd.specs.Forms.{IsSize};
ghost use Rattle.iges_solid_cmd.specs.Texts.{sample_line};
ghost use Rattle.iges_write.specs.Text.{IsText};
ghost use Rattle.sample_solids.specs.Laws.{faces_in};
ghost use Rattle.sample_solids.specs.Sample.{sample};
ghost use Rattle.std.specs.Prelude.{◌≡◌, ◌+◌, ◌<◌, ◌≤◌, drop, length, IfOk};

use crate::showing::put_count;
use brep_walk::{WalkFault, walk};
use cert_lines::read_opening;
use cert_maker::{MakeFault, certify};
use command_replies::{Answer, Reply};
use iges_base::{Bytes, EntryNo, FILE_LIMIT, NoMemory, Out, write_number};
use iges_params::{File, ReadFileFault, read_file};
use iges_write::{WriteFileFault, write_file};
use sample_solids::sample_file;
use solid_data::{ShellAt, Solid};
use std::alloc::Global;
use topo_certificate::{Checker, check, write_certificate};

// The canonical text of the sample of so many times so many faces.
fn sample_text(alloc: Global, n: u32) -> Result<Bytes, NoMemory>
    requires { IsSize n }
    ensures text { IfOk result (IsText (sample n)) }
    ensures within { IfOk result (λ bytes. length bytes ≤ FILE_LIMIT) }
{
    let file = sample_file(alloc, n)?;
    match write_file(alloc, &file, FILE_LIMIT) {
        Ok(text) => Ok(text),
        Err(WriteFileFault::TooLarge) => unreachable!(),
        Err(WriteFileFault::NoMemory) => Err(NoMemory),
    }
}

// The file that this text is.
fn read_sample(alloc: Global, text: &[u8], n: u32) -> Result<File, NoMemory>
    requires size { IsSize n }
    requires text { IsText (sample n) text.now }
    requires within { length text.now ≤ FILE_LIMIT }
    ensures { IfOk result (λ file. file ≡ sample n) }
{
    match read_file(alloc, text) {
        Ok(file) => Ok(file),
        Err(ReadFileFault::Bad(_)) => unreachable!(),
        Err(ReadFileFault::NoMemory) => Err(NoMemory),
    }
}

// The solid 1 of the sample.
fn walk_sample(alloc: Global, file: &File, n: u32) -> Result<Solid, NoMemory>
    requires size { IsSize n }
    requires sample { file.now ≡ sample n }
    ensures { IfOk result (λ solid. solid ≡ solid_of (sample n) 1) }
{
    match walk(alloc, file, EntryNo(1)) {
        Ok(solid) => Ok(solid),
        Err(WalkFault::Fails(_)) => unreachable!(),
        Err(WalkFault::NoMemory) => Err(NoMemory),
    }
}

// The text of the certificate of the sample's solid.
fn certificate_text(alloc: Global, solid: &Solid, n: u32) -> Result<Bytes, NoMemory>
    requires size { IsSize n }
    requires sample { solid.now ≡ solid_of (sample n) 1 }
    ensures { IfOk result (IsCertificateText (sample n) 1) }
{
    match certify(alloc, solid) {
        Ok(certificate) => write_certificate(alloc, &certificate),
        Err(MakeFault::Fails(_)) => unreachable!(),
        Err(MakeFault::NoMemory) => Err(NoMemory),
    }
}

// Checks the text of the certificate, which can't but be accepted.
fn check_text(alloc: Global, solid: &Solid, text: &[u8], n: u32) -> Result<(), NoMemory>
    requires size { IsSize n }
    requires sample { solid.now ≡ solid_of (sample n) 1 }
    requires text { IsCertificateText (sample n) 1 text.now }
{
    let Ok((version, _, rest)) = read_opening(text) else {
        unreachable!();
    };
    let mut checker = Checker::new(alloc, solid, version)?;
    let Ok(()) = check(&mut checker, rest) else {
        unreachable!();
    };
    Ok(())
}

// How many faces the k-th shell has, from 0.
fn shell_faces(solid: &Solid, k: u32) -> u64
    requires { k < length solid.now.shells }
    ensures { result + length (faces_in (drop (k + 1) solid.now.shells))
        ≡ length (faces_in (drop k solid.now.shells)) }
{
    solid.shell(ShellAt(k)).unwrap().faces.len() as u64
}

// How many faces the shells have.
fn face_count(solid: &Solid) -> u64
    ensures { result ≡ length (faces_in solid.now.shells) }
{
    let mut count = 0;
    'shells: for k in 0..solid.shell_count() as u32 {
        count += shell_faces(solid, k);
    }
    count
}

// The line for the walked solid, and the lengths in bytes of its text and of its certificate.
fn line_of(
    alloc: Global,
    n: u32,
    solid: &Solid,
    file: usize,
    certificate: usize,
) -> Result<Bytes, NoMemory>
    ensures { IfOk result (λ text. text ≡ sample_line n (length (faces_in solid.now.shells))
        (length solid.now.edges) (length solid.now.vertices) file certificate) }
{
    let mut out = Out::new(alloc);
    out.put(b"sample ")?;
    write_number(&mut out, u64::from(n))?;
    put_count(&mut out, "faces", face_count(solid))?;
    put_count(&mut out, "edges", solid.edge_count() as u64)?;
    put_count(&mut out, "vertices", solid.vertex_count() as u64)?;
    put_count(&mut out, "file", file as u64)?;
    put_count(&mut out, "certificate", certificate as u64)?;
    out.put(b" accepted\n")?;
    Ok(out.into_bytes())
}

// The line for the sample's solid, which is certified, and whose file has this text.
fn solid_reply(alloc: Global, n: u32, solid: &Solid, text: &[u8]) -> Result<Reply, NoMemory>
    requires size { IsSize n }
    requires sample { solid.now ≡ solid_of (sample n) 1 }
    requires text { IsText (sample n) text.now }
    ensures { IfOk result (λ reply. OfSample n reply.answer reply.text) }
{
    let certificate = certificate_text(alloc, solid, n)?;
    let certificate = certificate.as_slice();
    check_text(alloc, solid, certificate, n)?;
    Ok(Reply {
        answer: Answer::Done,
        text: line_of(alloc, n, solid, text.len(), certificate.len())?,
    })
}

// The line for the sample, whose file has this text and was read from it.
fn sample_reply(alloc: Global, n: u32, file: &File, text: &[u8]) -> Result<Reply, NoMemory>
    requires size { IsSize n }
    requires sample { file.now ≡ sample n }
    requires text { IsText (sample n) text.now }
    ensures { IfOk result (λ reply. OfSample n reply.answer reply.text) }
{
    let solid = walk_sample(alloc, file, n)?;
    let reply = solid_reply(alloc, n, &solid, text);
    drop(solid);
    reply
}

// The line for the sample, whose file has this text.
fn text_reply(alloc: Global, n: u32, text: &[u8]) -> Result<Reply, NoMemory>
    requires size { IsSize n }
    requires text { IsText (sample n) text.now }
    requires within { length text.now ≤ FILE_LIMIT }
    ensures { IfOk result (λ reply. OfSample n reply.answer reply.text) }
{
    let file = read_sample(alloc, text, n)?;
    let reply = sample_reply(alloc, n, &file, text);
    drop(file);
    reply
}

/// Makes the sample of so many times so many faces, forms its text, reads it, walks and certifies its solid, forms the
/// certificate's text and checks that; gives the counts of the walked solid and the lengths of both texts.
pub fn certify_sample(alloc: Global, n: u32) -> Result<Reply, NoMemory>
    requires { IsSize n }
    ensures { IfOk result (λ reply. OfSample n reply.answer reply.text) }
{
    let text = sample_text(alloc, n)?;
    text_reply(alloc, n, text.as_slice())
}
