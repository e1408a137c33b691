//! The rest of a certificate, given to a checker as it is read, and the reply at its end.

ghost use Rattle.cert_lines.specs.declared.version.Version.TheVariants.{Three};
ghost use Rattle.iges_params.specs.Contents.{Contents};
ghost use Rattle.certificate_commands.specs.Due.{OfVerify};
ghost use Rattle.certificate_commands.specs.Judging.{HasChecked, HasTooMany, IsOfOne, IsRestFed, ReadsOn};
ghost use Rattle.std.specs.Bool.{MatchBool};
ghost use Rattle.std.specs.Prelude.{◌≡◌, ◌-◌, ◌≤◌, List, ℕ, length, IfOk};

use cert_text::CERT_LIMIT;
use command_replies::{Reply, Stop, accepted, illegal};
use iges_base::{EntryNo, NoMemory};
use iges_io::{NextPiece, PIECE, Source, next_piece};
use std::alloc::Global;
use topo_certificate::{Checker, Version};

/// Whether certificates of this version are of one solid.
pub fn is_of_one(version: Version) -> bool
    ensures { MatchBool result (IsOfOne version) (version ≡ Three) }
{
    match version {
        Version::One | Version::Two => true,
        Version::Three => false,
    }
}

/// Reads the rest of a certificate, of which so many bytes have come, and gives it to a checker: whether the certificate is
/// no larger than it may be.
pub fn feed_rest<C: Source>(
    checker: &mut Checker<'_>,
    cert: &mut C,
    piece: &mut [u8],
    came: u64,
) -> Result<bool, Stop>
    requires ready { C.can_read cert.old }
    requires room { length piece.old ≡ PIECE }
    requires few { came ≤ CERT_LIMIT }
    ensures found { IfOk result (λ within. MatchBool within
        (IsRestFed (C.left cert.old) (C.left cert.new) came checker.old checker.new)
        (HasTooMany (C.left cert.old) (C.left cert.new) came)) }
    ensures reads { ReadsOn (CERT_LIMIT - came) (C.left cert.old) (C.left cert.new)
        (C.faults cert.old) (C.faults cert.new) result }
{
    let mut came = came;
    'reads: loop {
        let Ok(next) = next_piece(cert, piece, came, CERT_LIMIT) else {
            return Err(Stop::ReadFault);
        };
        let count = match next {
            NextPiece::Bytes(count) => count,
            NextPiece::End => return Ok(true),
            NextPiece::TooLarge => return Ok(false),
        };
        // A fault is kept, and reported at the end: the certificate may still be too large.
        let _fault = checker.feed(&piece[..count]);
        came += count as u64;
    }
}

/// The reply at the end of a certificate of this solid, whose lines from line 3 on the checker was given.
pub fn end_reply(alloc: Global, checker: &mut Checker<'_>, no: EntryNo) -> Result<Reply, NoMemory>
    ensures { IfOk result (λ reply. (f : Contents) (text : List ℕ)
        → HasChecked f no.0 text checker.old → length text ≤ CERT_LIMIT
        → OfVerify text f reply.answer reply.text) }
{
    match checker.finish() {
        Ok(()) => accepted(alloc, no),
        Err(bad) => illegal(alloc, bad),
    }
}
