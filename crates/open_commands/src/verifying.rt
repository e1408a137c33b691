//! Verifying the certificate of an open shell.

ghost use Rattle.std.specs.Prelude.{◌≤◌, length, IfOk};
ghost use Rattle.cert_lines.specs.Line.{cut_lines};
ghost use Rattle.command_replies.specs.Outcome.{ReadsCertificate};
ghost use Rattle.command_replies.specs.Replies.{CountAfterCall, IsReply, TakesWithin};
ghost use Rattle.open_commands.specs.Due.{OfOpenVerify, OfShellLines};

use crate::checking::checked_shell;
use crate::judging::judge_lines;
use crate::opening::read_opening;
use cert_text::CERT_LIMIT;
use command_replies::{Reply, Stop, accepted, bytes_in, failed, illegal};
use iges_base::{EntryNo, NoMemory};
use iges_io::Source;
use iges_params::File;
use open_shells::OpenChecker;
use shell_rules::CheckFault;
use std::alloc::Global;

// The reply for a certificate that names a shell in its second line, by the text from that line on.
fn lines_reply(alloc: Global, file: File, no: EntryNo, lines: &[u8]) -> Result<Reply, NoMemory>
    ensures { IfOk result (λ reply. OfShellLines no.0
        (cut_lines lines.now) file reply.answer reply.text) }
{
    let solid = match checked_shell(alloc, file, no) {
        Ok(solid) => solid,
        Err(CheckFault::Fails(failing)) => return failed(alloc, failing),
        Err(CheckFault::NoMemory) => return Err(NoMemory),
    };
    let mut checker = OpenChecker::new(alloc, &solid)?;
    match judge_lines(&mut checker, lines) {
        Ok(()) => accepted(alloc, no),
        Err(bad) => illegal(alloc, bad),
    }
}

// The reply for a certificate of these bytes: what its first two lines say by themselves comes first.
fn text_reply(alloc: Global, file: File, certificate: &[u8]) -> Result<Reply, NoMemory>
    requires { length certificate.now ≤ CERT_LIMIT }
    ensures { IfOk result (λ reply. OfOpenVerify certificate.now file reply.answer reply.text) }
{
    let (no, lines) = match read_opening(certificate) {
        Ok(opening) => opening,
        Err(bad) => return illegal(alloc, bad),
    };
    lines_reply(alloc, file, no, lines)
}

/// What verifying the certificate of an open shell that a source gives says of a file: the solid's number where it is
/// accepted, else the first thing that is wrong. The certificate is read to its end and held whole.
pub fn verify_shell<C: Source>(alloc: Global, file: File, cert: &mut C) -> Result<Reply, Stop>
    requires { C.can_read cert.old }
    ensures found { IfOk result (IsReply (λ certificate. OfOpenVerify certificate file)
        (C.left cert.old)) }
    ensures whole { IfOk result (λ reply. ReadsCertificate (C.left cert.new) reply.answer) }
    ensures count { CountAfterCall (C.faults cert.old) (C.faults cert.new) result }
    ensures taken { TakesWithin CERT_LIMIT (C.left cert.old) (C.left cert.new) result }
{
    match bytes_in(alloc, cert, CERT_LIMIT)? {
        Ok(bytes) => Ok(text_reply(alloc, file, bytes.as_slice())?),
        Err(reply) => Ok(reply),
    }
}
