//! Certificates whose reply is decided before they have come whole.

ghost use Rattle.iges_params.specs.Contents.{Contents};
ghost use Rattle.certificate_commands.specs.Due.{OfVerify};
ghost use Rattle.certificate_commands.specs.Judging.{HasTooMany, IsDecided, IsRestRead, ReadsOn};
ghost use Rattle.command_replies.specs.Outcome.{ReadsCertificate};
ghost use Rattle.command_replies.specs.Replies.{IsReply};
ghost use Rattle.std.specs.Bool.{MatchBool};
ghost use Rattle.std.specs.Io.KnownBytes.{Consumes};
ghost use Rattle.std.specs.Prelude.{◌≡◌, ◌-◌, ◌≤◌, List, ℕ, Option, length, IfOk};

use cert_text::CERT_LIMIT;
use command_replies::{Reply, Stop, too_large};
use iges_io::{NextPiece, PIECE, Source, next_piece};

// Reads the rest of a certificate, of which so many bytes have come: whether the certificate is no larger than it may be.
fn read_rest<C: Source>(cert: &mut C, piece: &mut [u8], came: u64) -> Result<bool, Stop>
    requires ready { C.can_read cert.old }
    requires room { length piece.old ≡ PIECE }
    requires few { came ≤ CERT_LIMIT }
    ensures found { IfOk result (λ within. MatchBool within
        (IsRestRead (C.left cert.old) (C.left cert.new) came)
        (HasTooMany (C.left cert.old) (C.left cert.new) came)) }
    ensures reads { ReadsOn (CERT_LIMIT - came) (C.left cert.old) (C.left cert.new)
        (C.faults cert.old) (C.faults cert.new) result }
{
    let mut came = came;
    'reads: loop {
        let Ok(next) = next_piece(cert, piece, came, CERT_LIMIT) else {
            return Err(Stop::ReadFault);
        };
        came += match next {
            NextPiece::Bytes(count) => count as u64,
            NextPiece::End => return Ok(true),
            NextPiece::TooLarge => return Ok(false),
        };
    }
}

/// The reply for a certificate of which so many bytes have come and decided this one, unless it is too large; the rest is
/// read to its end.
pub fn decided_reply<C: Source>(
    cert: &mut C,
    piece: &mut [u8],
    came: u64,
    reply: Reply,
) -> Result<Reply, Stop>
    requires ready { C.can_read cert.old }
    requires room { length piece.old ≡ PIECE }
    requires few { came ≤ CERT_LIMIT }
    ensures found { (f : Contents) (before : Option (List ℕ)) (text : List ℕ)
        → Consumes before (C.left cert.old) text → length text ≡ came
        → IsDecided f text reply → IfOk result (IsReply
        (λ certificate. OfVerify certificate f) before) }
    ensures whole { IfOk result (λ reply. ReadsCertificate (C.left cert.new) reply.answer) }
    ensures reads { ReadsOn (CERT_LIMIT - came) (C.left cert.old) (C.left cert.new)
        (C.faults cert.old) (C.faults cert.new) result }
{
    if !read_rest(cert, piece, came)? {
        return Ok(too_large());
    }
    Ok(reply)
}
