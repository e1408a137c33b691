//! The reply to `verify`: a certificate is judged while it comes.

ghost use Rattle.certificate_commands.specs.Due.{OfVerify};
ghost use Rattle.certificate_commands.specs.Judging.{AreInBuffer, HasOpened, IsChecked, IsOfOne, ReadsOn};
ghost use Rattle.command_replies.specs.Outcome.{ReadsCertificate};
ghost use Rattle.command_replies.specs.Replies.{CountAfterCall, IsReply, TakesWithin};
ghost use Rattle.iges_params.specs.Contents.{Contents};
ghost use Rattle.solid_data.specs.SolidData.{SolidData};
ghost use Rattle.std.specs.Prelude.{◌≡◌, ◌-◌, [], List, ℕ, Option, length, IfOk};
ghost use Rattle.topo_certificate.specs.Feeding.{IsFed};

use crate::books::{PartStart, book_reply};
use crate::checking::named_solid;
use crate::decided::decided_reply;
use crate::judging::{end_reply, feed_rest, is_of_one};
use crate::opening::{Opened, OpeningEnd, opening_in};
use cert_text::CERT_LIMIT;
use command_replies::{Reply, Stop, buffer, illegal, too_large};
use iges_io::{PIECE, Source};
use iges_params::File;
use solid_data::Solid;
use std::alloc::Global;
use topo_certificate::Checker;

// The reply for a certificate of one solid whose first two lines have come and are good, by a checker that was given none
// of its further lines.
fn lines_reply<C: Source>(
    alloc: Global,
    checker: &mut Checker<'_>,
    cert: &mut C,
    piece: &mut [u8],
    opened: Opened,
) -> Result<Reply, Stop>
    requires ready { C.can_read cert.old }
    requires room { length piece.old ≡ PIECE }
    requires place { AreInBuffer piece.old opened }
    requires one { IsOfOne opened.version }
    ensures found { (f : Contents) (s : SolidData) (before : Option (List ℕ))
        → HasOpened before (C.left cert.old) piece.old opened → IsChecked f opened.no.0 s
        → IsFed opened.version s 3 [] checker.old → IfOk result (IsReply
        (λ certificate. OfVerify certificate f) before) }
    ensures whole { IfOk result (λ reply. ReadsCertificate (C.left cert.new) reply.answer) }
    ensures reads { ReadsOn (CERT_LIMIT - opened.came) (C.left cert.old) (C.left cert.new)
        (C.faults cert.old) (C.faults cert.new) result }
{
    // A fault is kept, and reported at the end: the certificate may still be too large.
    let _fault = checker.feed(&piece[opened.from..opened.to]);
    if !feed_rest(checker, cert, piece, opened.came)? {
        return Ok(too_large());
    }
    Ok(end_reply(alloc, checker, opened.no)?)
}

// The reply for a certificate of one solid, this one, whose first two lines have come and are good.
fn verify_lines<C: Source>(
    alloc: Global,
    solid: &Solid,
    cert: &mut C,
    piece: &mut [u8],
    opened: Opened,
) -> Result<Reply, Stop>
    requires ready { C.can_read cert.old }
    requires room { length piece.old ≡ PIECE }
    requires place { AreInBuffer piece.old opened }
    requires one { IsOfOne opened.version }
    ensures found { (f : Contents) (before : Option (List ℕ))
        → HasOpened before (C.left cert.old) piece.old opened → IsChecked f opened.no.0 solid.now
        → IfOk result (IsReply (λ certificate. OfVerify certificate f) before) }
    ensures whole { IfOk result (λ reply. ReadsCertificate (C.left cert.new) reply.answer) }
    ensures reads { ReadsOn (CERT_LIMIT - opened.came) (C.left cert.old) (C.left cert.new)
        (C.faults cert.old) (C.faults cert.new) result }
{
    let mut checker = Checker::new(alloc, solid, opened.version)?;
    lines_reply(alloc, &mut checker, cert, piece, opened)
}

// The reply for a certificate of one solid whose first two lines have come and are good.
fn verify_alone<C: Source>(
    alloc: Global,
    file: File,
    cert: &mut C,
    piece: &mut [u8],
    opened: Opened,
) -> Result<Reply, Stop>
    requires ready { C.can_read cert.old }
    requires room { length piece.old ≡ PIECE }
    requires place { AreInBuffer piece.old opened }
    requires one { IsOfOne opened.version }
    ensures found { (before : Option (List ℕ)) → HasOpened before (C.left cert.old) piece.old opened
        → IfOk result (IsReply (λ certificate. OfVerify certificate file) before) }
    ensures whole { IfOk result (λ reply. ReadsCertificate (C.left cert.new) reply.answer) }
    ensures reads { ReadsOn (CERT_LIMIT - opened.came) (C.left cert.old) (C.left cert.new)
        (C.faults cert.old) (C.faults cert.new) result }
{
    let solid = match named_solid(alloc, file, opened.no)? {
        Ok(solid) => solid,
        Err(reply) => return decided_reply(cert, piece, opened.came, reply),
    };
    let reply = verify_lines(alloc, &solid, cert, piece, opened);
    drop(solid);
    reply
}

// The reply for a certificate whose first two lines have come and are good.
fn verify_opened<C: Source>(
    alloc: Global,
    file: File,
    cert: &mut C,
    piece: &mut [u8],
    opened: Opened,
) -> Result<Reply, Stop>
    requires ready { C.can_read cert.old }
    requires room { length piece.old ≡ PIECE }
    requires place { AreInBuffer piece.old opened }
    ensures found { (before : Option (List ℕ)) → HasOpened before (C.left cert.old) piece.old opened
        → IfOk result (IsReply (λ certificate. OfVerify certificate file) before) }
    ensures whole { IfOk result (λ reply. ReadsCertificate (C.left cert.new) reply.answer) }
    ensures reads { ReadsOn (CERT_LIMIT - opened.came) (C.left cert.old) (C.left cert.new)
        (C.faults cert.old) (C.faults cert.new) result }
{
    if is_of_one(opened.version) {
        return verify_alone(alloc, file, cert, piece, opened);
    }
    let begun = PartStart {
        no: opened.no,
        line: 3,
        from: opened.from,
        to: opened.to,
        came: opened.came,
    };
    book_reply(alloc, &file, cert, piece, begun)
}

/// Whether the certificate of a source is accepted for the file; else the first that keeps it from being so. The
/// certificate is judged while it comes, and is read to its end whatever is found. It errs where a read fails or memory
/// runs out.
pub fn verify_certificate<C: Source>(alloc: Global, file: File, cert: &mut C) -> Result<Reply, Stop>
    requires { C.can_read cert.old }
    ensures found { IfOk result (IsReply (λ certificate. OfVerify certificate file)
        (C.left cert.old)) }
    ensures whole { IfOk result (λ reply. ReadsCertificate (C.left cert.new) reply.answer) }
    ensures count { CountAfterCall (C.faults cert.old) (C.faults cert.new) result }
    ensures taken { TakesWithin CERT_LIMIT (C.left cert.old) (C.left cert.new) result }
{
    let mut room = buffer(alloc)?;
    let piece = room.as_mut_slice();
    match opening_in(cert, piece)? {
        OpeningEnd::TooLarge => Ok(too_large()),
        OpeningEnd::Ended(bad) => Ok(illegal(alloc, bad)?),
        OpeningEnd::Bad(bad, came) => {
            let reply = illegal(alloc, bad)?;
            decided_reply(cert, piece, came, reply)
        }
        OpeningEnd::Both(opened) => verify_opened(alloc, file, cert, piece, opened),
    }
}
