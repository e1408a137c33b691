//! Verifying the text of an orientation.

ghost use Rattle.std.specs.Prelude.{◌≡◌, ◌≤◌, length, IfOk, IfErr, MatchResult};
ghost use Rattle.brep_walk.specs.SolidOf.{solid_of};
ghost use Rattle.cert_lines.specs.Line.{cut_lines};
ghost use Rattle.command_replies.specs.Outcome.{ReadsCertificate};
ghost use Rattle.command_replies.specs.Replies.{CountAfterCall, IsReply, TakesWithin};
ghost use Rattle.orient_commands.specs.Due.{OfOrientLines, OfOrientVerify};
ghost use Rattle.orient_commands.specs.Reading.{IsOfLines};
ghost use Rattle.orient_commands.specs.Shells.{IsCounted, OfAllShells};

use crate::counting::count_shells;
use crate::fault::TextFault;
use crate::lines::check_lines;
use crate::orienting::shell_failed;
use crate::reading::read_head;
use brep_walk::{WalkFault, walk};
use cert_text::CERT_LIMIT;
use command_replies::{Reply, Stop, accepted, bytes_in, failed, illegal};
use face_orient::OrientFault;
use iges_base::{EntryNo, NoMemory};
use iges_io::Source;
use iges_params::File;
use solid_data::Solid;
use std::alloc::Global;

/// The reply for lines after one that names a solid of which COUNT holds.
fn lines_reply(alloc: Global, solid: &Solid, no: EntryNo, text: &[u8]) -> Result<Reply, NoMemory>
    requires { OfAllShells IsCounted solid.now }
    ensures { IfOk result (IsOfLines solid.now no.0 (cut_lines text.now)) }
{
    match check_lines(alloc, solid, text) {
        Ok(()) => accepted(alloc, no),
        Err(TextFault::Bad(bad)) => illegal(alloc, bad),
        Err(TextFault::NoMemory) => Err(NoMemory),
    }
}

/// The reply for a text after one that names a solid.
fn solid_reply(alloc: Global, file: File, no: EntryNo, text: &[u8]) -> Result<Reply, NoMemory>
    ensures { IfOk result (λ reply. OfOrientLines no.0
        (cut_lines text.now) file reply.answer reply.text) }
{
    let solid = match walk(alloc, &file, no) {
        Ok(solid) => solid,
        Err(WalkFault::Fails(failing)) => return failed(alloc, failing),
        Err(WalkFault::NoMemory) => return Err(NoMemory),
    };
    file.memory().release(file);
    match count_shells(alloc, &solid) {
        Ok(()) => lines_reply(alloc, &solid, no, text),
        Err(OrientFault::Fails(failing)) => shell_failed(alloc, failing),
        Err(OrientFault::NoMemory) => Err(NoMemory),
    }
}

/// The reply for a text that isn't too large.
fn text_reply(alloc: Global, file: File, text: &[u8]) -> Result<Reply, NoMemory>
    requires { length text.now ≤ CERT_LIMIT }
    ensures { IfOk result (λ reply. OfOrientVerify text.now file reply.answer reply.text) }
{
    match read_head(alloc, text) {
        Ok((no, rest)) => solid_reply(alloc, file, no, rest),
        Err(TextFault::Bad(bad)) => illegal(alloc, bad),
        Err(TextFault::NoMemory) => Err(NoMemory),
    }
}

/// Whether the text of a source is an orientation of the solid that it names: it is accepted, rings included, or the
/// first thing that is wrong with its line 1, with the solid's records, with a shell's edges or with a further line is
/// reported. The text is held whole.
pub fn verify_orientation<C: Source>(alloc: Global, file: File, cert: &mut C) -> Result<Reply, Stop>
    requires { C.can_read cert.old }
    ensures found { IfOk result (IsReply (λ text. OfOrientVerify text file) (C.left cert.old)) }
    ensures whole { IfOk result (λ reply. ReadsCertificate (C.left cert.new) reply.answer) }
    ensures count { CountAfterCall (C.faults cert.old) (C.faults cert.new) result }
    ensures taken { TakesWithin CERT_LIMIT (C.left cert.old) (C.left cert.new) result }
{
    match bytes_in(alloc, cert, CERT_LIMIT)? {
        Ok(bytes) => Ok(text_reply(alloc, file, bytes.as_slice())?),
        Err(reply) => Ok(reply),
    }
}
