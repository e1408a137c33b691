//! The reply to `upgrade`: an accepted certificate as version 2, an accepted book as it is.

ghost use Rattle.cert_lines.specs.Line.{cut_lines};
ghost use Rattle.cert_lines.specs.Opening.{Opens};
ghost use Rattle.cert_lines.specs.declared.version.Version.TheVariants.{Three};
ghost use Rattle.command_replies.specs.Due.{OfText};
ghost use Rattle.certificate_commands.specs.Due.{OfUpgrade};
ghost use Rattle.certificate_commands.specs.Judging.{IsChecked, IsOfOne};
ghost use Rattle.iges_params.specs.Contents.{Contents};
ghost use Rattle.command_replies.specs.Outcome.{ReadsCertificate};
ghost use Rattle.command_replies.specs.Replies.{CountAfterCall, IsReply, TakesWithin};
ghost use Rattle.std.specs.Prelude.{◌≤◌, ℕ, length, IfOk, MatchResult};
ghost use Rattle.topo_certificate.specs.Legal.{IsFirstBad, IsLegal};
ghost use Rattle.topo_certificate.specs.Upgraded.{upgraded};

use crate::checking::named_solid;
use crate::held_book::book_refusal;
use crate::judging::is_of_one;
use cert_lines::read_opening;
use cert_text::{CERT_LIMIT, Illegal};
use command_replies::{Answer, Reply, Stop, bytes_in, illegal, too_large};
use iges_base::{Bytes, EntryNo, NoMemory};
use iges_io::Source;
use iges_params::File;
use solid_data::Solid;
use std::alloc::Global;
use topo_certificate::{Checker, UpgradeFault, Version, check, upgrade};

// The reply with the text of version 2.
fn upgraded_reply(alloc: Global, solid: &Solid, certificate: &[u8]) -> Result<Reply, NoMemory>
    ensures { IfOk result
        (λ reply. OfText (upgraded solid.now certificate.now) reply.answer reply.text) }
{
    match upgrade(alloc, solid, certificate, CERT_LIMIT) {
        Ok(text) => Ok(Reply {
            answer: Answer::Done,
            text,
        }),
        Err(UpgradeFault::TooLarge) => Ok(too_large()),
        Err(UpgradeFault::NoMemory) => Err(NoMemory),
    }
}

// Whether the lines of this rest of a certificate, of which the first is line 3, are legal for a solid.
fn judge_lines(
    alloc: Global,
    solid: &Solid,
    version: Version,
    rest: &[u8],
) -> Result<Result<(), Illegal>, NoMemory>
    ensures { IfOk result (λ judged. MatchResult judged
        (λ _. IsLegal version solid.now (cut_lines rest.now))
        (λ bad. IsFirstBad version solid.now 3 (cut_lines rest.now) bad)) }
{
    let mut checker = Checker::new(alloc, solid, version)?;
    Ok(check(&mut checker, rest))
}

// The reply for a certificate of this solid, of this version, that has this rest after its first two lines.
fn judged_reply(
    alloc: Global,
    solid: &Solid,
    certificate: &[u8],
    version: Version,
    rest: &[u8],
) -> Result<Reply, NoMemory>
    requires few { length certificate.now ≤ CERT_LIMIT }
    requires one { IsOfOne version }
    ensures { (f : Contents) (n : ℕ) → Opens certificate.now version n (cut_lines rest.now)
        → IsChecked f n solid.now
        → IfOk result (λ reply. OfUpgrade certificate.now f reply.answer reply.text) }
{
    match judge_lines(alloc, solid, version, rest)? {
        Ok(()) => upgraded_reply(alloc, solid, certificate),
        Err(bad) => illegal(alloc, bad),
    }
}

// The reply for a certificate of one solid, of this version, that has this rest after its first two lines.
fn upgrade_alone(
    alloc: Global,
    file: File,
    certificate: &[u8],
    version: Version,
    no: EntryNo,
    rest: &[u8],
) -> Result<Reply, NoMemory>
    requires few { length certificate.now ≤ CERT_LIMIT }
    requires one { IsOfOne version }
    requires opens { Opens certificate.now version no.0 (cut_lines rest.now) }
    ensures { IfOk result (λ reply. OfUpgrade certificate.now file reply.answer reply.text) }
{
    let solid = match named_solid(alloc, file, no)? {
        Ok(solid) => solid,
        Err(reply) => return Ok(reply),
    };
    let reply = judged_reply(alloc, &solid, certificate, version, rest);
    drop(solid);
    reply
}

// The reply for a book, which has this rest after its first two lines.
fn upgrade_book(
    alloc: Global,
    file: &File,
    certificate: &[u8],
    no: EntryNo,
    rest: &[u8],
) -> Result<Reply, NoMemory>
    requires few { length certificate.now ≤ CERT_LIMIT }
    requires opens { Opens certificate.now Three no.0 (cut_lines rest.now) }
    ensures { IfOk result (λ reply. OfUpgrade certificate.now file.now reply.answer reply.text) }
{
    match book_refusal(alloc, file, certificate, no, rest)? {
        Some(reply) => Ok(reply),
        None => Ok(Reply {
            answer: Answer::Done,
            text: Bytes::copy(alloc, certificate)?,
        }),
    }
}

// The reply for a certificate of these bytes: what its first two lines say comes first.
fn upgrade_text(alloc: Global, file: File, certificate: &[u8]) -> Result<Reply, NoMemory>
    requires { length certificate.now ≤ CERT_LIMIT }
    ensures { IfOk result (λ reply. OfUpgrade certificate.now file reply.answer reply.text) }
{
    let (version, no, rest) = match read_opening(certificate) {
        Ok(opening) => opening,
        Err(bad) => return illegal(alloc, bad),
    };
    if is_of_one(version) {
        return upgrade_alone(alloc, file, certificate, version, no, rest);
    }
    upgrade_book(alloc, &file, certificate, no, rest)
}

/// The certificate of a source upgraded, where it is accepted for the file; else what verifying it says. It is held
/// whole. It errs where a read fails or memory runs out.
pub fn upgrade_certificate<C: Source>(
    alloc: Global,
    file: File,
    cert: &mut C,
) -> Result<Reply, Stop>
    requires { C.can_read cert.old }
    ensures found { IfOk result (IsReply (λ certificate. OfUpgrade certificate file)
        (C.left cert.old)) }
    ensures whole { IfOk result (λ reply. ReadsCertificate (C.left cert.new) reply.answer) }
    ensures count { CountAfterCall (C.faults cert.old) (C.faults cert.new) result }
    ensures taken { TakesWithin CERT_LIMIT (C.left cert.old) (C.left cert.new) result }
{
    match bytes_in(alloc, cert, CERT_LIMIT)? {
        Ok(bytes) => Ok(upgrade_text(alloc, file, bytes.as_slice())?),
        Err(reply) => Ok(reply),
    }
}
