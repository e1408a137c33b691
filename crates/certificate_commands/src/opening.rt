//! The first two lines of a certificate, read from a source.

ghost use Rattle.certificate_commands.specs.Judging.{EndsEarly, GoesOn, IsOpeningEnd, ReadsOn};
ghost use Rattle.std.specs.Prelude.{◌≡◌, List, ℕ, length, IfOk};
ghost use Rattle.cert_lines.specs.Opening.{IsBadOpening};
ghost use Rattle.topo_certificate.specs.OpeningFed.{IsOpening, IsWaiting};

use cert_text::{CERT_LIMIT, Illegal};
use command_replies::Stop;
use iges_base::EntryNo;
use iges_io::{NextPiece, PIECE, Source, next_piece};
use topo_certificate::{Opening, OpeningStep, Version};

/// The first two lines of a certificate have come, and are good.
#[derive(Clone, Copy)]
pub struct Opened {
    /// The version that line 1 names.
    pub version: Version,
    /// The solid that line 2 names.
    pub no: EntryNo,
    /// Where in the buffer the bytes after line 2 begin.
    pub from: usize,
    /// Where in the buffer the bytes of the last read end.
    pub to: usize,
    /// How many bytes have come in all.
    pub came: u64,
}

/// What reading the first two lines of a certificate came to.
#[derive(Clone, Copy)]
pub enum OpeningEnd {
    /// More bytes than a certificate may have came before.
    TooLarge,
    /// The certificate ended, and this line is missing, or misspelt for want of its LF.
    Ended(Illegal),
    /// This line is bad; so many bytes have come.
    Bad(Illegal, u64),
    /// Both are good.
    Both(Opened),
}

// Which line is missing or misspelt where a certificate ends before its second line does.
fn fault_at_end(opening: &mut Opening) -> Illegal
    requires { IsWaiting opening.old.stage }
    ensures { (text : List ℕ) → IsOpening opening.old text → IsBadOpening text result }
{
    match opening.finish() {
        Err(bad) => bad,
        Ok(()) => unreachable!(),
    }
}

/// Reads a certificate up to the end of its second line, or to the end of the piece with the first bad one.
pub fn opening_in<C: Source>(cert: &mut C, piece: &mut [u8]) -> Result<OpeningEnd, Stop>
    requires ready { C.can_read cert.old }
    requires room { length piece.old ≡ PIECE }
    ensures found { IfOk result (IsOpeningEnd (C.left cert.old) (C.left cert.new) piece.new) }
    ensures reads { ReadsOn CERT_LIMIT (C.left cert.old) (C.left cert.new)
        (C.faults cert.old) (C.faults cert.new) result }
    ensures more { IfOk result (λ end. GoesOn end → C.can_read cert.new) }
{
    let mut opening = Opening::new();
    let mut came = 0;
    'reads: loop {
        let Ok(next) = next_piece(cert, piece, came, CERT_LIMIT) else {
            return Err(Stop::ReadFault);
        };
        let to = match next {
            NextPiece::Bytes(count) => count,
            NextPiece::End => return Ok(OpeningEnd::Ended(fault_at_end(&mut opening))),
            NextPiece::TooLarge => return Ok(OpeningEnd::TooLarge),
        };
        came += to as u64;
        match opening.feed(&piece[..to]) {
            Ok(OpeningStep::More) => {}
            Ok(OpeningStep::Solid { version, no, used }) => {
                return Ok(OpeningEnd::Both(Opened {
                    version,
                    no,
                    from: used,
                    to,
                    came,
                }));
            }
            Err(bad) => return Ok(OpeningEnd::Bad(bad, came)),
        }
    }
}
