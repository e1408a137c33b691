//! Books: certificates of version 3, which are judged part by part.

ghost use Rattle.certificate_commands.specs.Books.{EndsInside, HasBegun, HasNext, IsInPart, IsPartEnd, IsPartJudged, IsPlace, Leaves, held};
ghost use Rattle.certificate_commands.specs.Due.{OfVerify};
ghost use Rattle.certificate_commands.specs.Judging.{IsChecked, ReadsOn};
ghost use Rattle.command_replies.specs.Outcome.{ReadsCertificate};
ghost use Rattle.command_replies.specs.Replies.{IsReply};
ghost use Rattle.iges_params.specs.Contents.{Contents};
ghost use Rattle.solid_data.specs.SolidData.{SolidData};
ghost use Rattle.std.specs.Prelude.{◌≡◌, ◌-◌, ◌≤◌, ◌++◌, [], List, ℕ, Option, MatchOption, length, take, IfOk, IfSome};
ghost use Rattle.topo_certificate.specs.Feeding.{IsFedPart};
ghost use Rattle.topo_certificate.specs.PartEnds.{EndsPart};
ghost use Rattle.cert_lines.specs.declared.version.Version.{Version as Edition};
ghost use Rattle.cert_lines.specs.declared.version.Version.TheVariants.{Two};

use crate::checking::part_solid;
use crate::decided::decided_reply;
use brep_walk::Walker;
use cert_text::CERT_LIMIT;
use command_replies::{Answer, Reply, Stop, illegal, put_accepted, too_large};
use iges_base::{EntryNo, NoMemory, Out};
use iges_io::{NextPiece, PIECE, Source, next_piece};
use iges_params::File;
use solid_data::Solid;
use std::alloc::Global;
use topo_certificate::{Checker, PartStep};

/// The line that names the solid of a part has come.
#[derive(Clone, Copy)]
pub struct PartStart {
    /// The solid.
    pub no: EntryNo,
    /// The number of the line after that line.
    pub line: u64,
    /// Where in the buffer the bytes after that line begin.
    pub from: usize,
    /// Where in the buffer the bytes of the last read end.
    pub to: usize,
    /// How many bytes have come in all.
    pub came: u64,
}

/// How a part of a book ended.
#[derive(Clone, Copy)]
pub enum PartEnd {
    /// With the line that names the next solid.
    Next(PartStart),
    /// With the certificate.
    Last,
    /// More bytes than a certificate may have came before.
    TooLarge,
}

/// What judging a part of a book came to.
#[derive(Drop)]
pub enum PartJudged {
    /// It is good, and the next one has begun.
    Next(PartStart),
    /// It is good, and the last one.
    Last,
    /// This is the reply.
    Decided(Reply),
}

/// Where a piece ended a part: the line that names the next solid.
#[derive(Clone, Copy)]
pub struct NextSolid {
    /// The directory number on that line.
    pub no: EntryNo,
    /// The number of the line after it.
    pub line: u64,
    /// How many bytes the piece has up to its end.
    pub used: usize,
}

/// Gives a checker the next bytes of its part, up to the line that names the next solid where it is among them.
pub fn feed(checker: &mut Checker<'_>, piece: &[u8]) -> Option<NextSolid>
    requires { IsInPart checker.old }
    ensures within { IfSome result (λ next. next.used ≤ length piece.now) }
    ensures fed { (v : Edition) (s : SolidData) (first : ℕ) (text : List ℕ) → IsFedPart v s first text checker.old → MatchOption result
        (IsFedPart v s first (text ++ piece.now) checker.new)
        (λ next. (next.used ≤ length piece.now) × EndsPart v s first (text ++ take next.used piece.now) next.no.0 next.line checker.new) }
{
    match checker.feed_part(piece) {
        Ok(PartStep::Next { no, line, used }) => Some(NextSolid { no, line, used }),
        Ok(PartStep::More) => None,
        // A fault is kept, and reported at the end: the certificate may still be too large.
        Err(_) => None,
    }
}

// Gives a checker the bytes of its part while they come.
fn read_part<C: Source>(
    cert: &mut C,
    piece: &mut [u8],
    checker: &mut Checker<'_>,
    begun: PartStart,
) -> Result<PartEnd, Stop>
    requires ready { C.can_read cert.old }
    requires room { length piece.old ≡ PIECE }
    requires place { IsPlace piece.old begun }
    requires part { IsInPart checker.old }
    ensures found { IfOk result (IsPartEnd (C.left cert.old) (C.left cert.new) begun.came
        (held piece.old begun) piece.new checker.old checker.new) }
    ensures reads { ReadsOn (CERT_LIMIT - begun.came) (C.left cert.old) (C.left cert.new)
        (C.faults cert.old) (C.faults cert.new) result }
    ensures more { IfOk result (λ end. EndsInside end → C.can_read cert.new) }
{
    let mut from = begun.from;
    let mut to = begun.to;
    let mut came = begun.came;
    'pieces: loop {
        if let Some(next) = feed(checker, &piece[from..to]) {
            return Ok(PartEnd::Next(PartStart {
                no: next.no,
                line: next.line,
                from: from + next.used,
                to,
                came,
            }));
        }
        let Ok(read) = next_piece(cert, piece, came, CERT_LIMIT) else {
            return Err(Stop::ReadFault);
        };
        to = match read {
            NextPiece::Bytes(count) => count,
            NextPiece::End => return Ok(PartEnd::Last),
            NextPiece::TooLarge => return Ok(PartEnd::TooLarge),
        };
        from = 0;
        came += to as u64;
    }
}

// Judges the lines of the part that has begun, by a checker that was given none of them.
fn part_outcome<C: Source>(
    alloc: Global,
    checker: &mut Checker<'_>,
    cert: &mut C,
    piece: &mut [u8],
    begun: PartStart,
) -> Result<PartJudged, Stop>
    requires ready { C.can_read cert.old }
    requires room { length piece.old ≡ PIECE }
    requires place { IsPlace piece.old begun }
    requires starts { (s : SolidData) × IsFedPart Two s begun.line [] checker.old }
    ensures found { (f : Contents) (s : SolidData) (ns : List ℕ) (before : Option (List ℕ))
        → HasBegun f ns before (C.left cert.old) piece.old begun
        → IsChecked f begun.no.0 s → IsFedPart Two s begun.line [] checker.old
        → IfOk result (IsPartJudged f ns begun.no.0 before (C.left cert.new) piece.new) }
    ensures leaves { IfOk result (Leaves (C.left cert.old) (C.left cert.new) piece.new begun) }
    ensures reads { ReadsOn (CERT_LIMIT - begun.came) (C.left cert.old) (C.left cert.new)
        (C.faults cert.old) (C.faults cert.new) result }
    ensures more { IfOk result (λ judged. HasNext judged → C.can_read cert.new) }
{
    match read_part(cert, piece, checker, begun)? {
        PartEnd::Next(next) => Ok(PartJudged::Next(next)),
        PartEnd::Last => match checker.finish() {
            Ok(()) => Ok(PartJudged::Last),
            Err(bad) => Ok(PartJudged::Decided(illegal(alloc, bad)?)),
        },
        PartEnd::TooLarge => Ok(PartJudged::Decided(too_large())),
    }
}

// Judges the lines of the part that has begun, for its solid.
fn judge_part_lines<C: Source>(
    alloc: Global,
    solid: &Solid,
    cert: &mut C,
    piece: &mut [u8],
    begun: PartStart,
) -> Result<PartJudged, Stop>
    requires ready { C.can_read cert.old }
    requires room { length piece.old ≡ PIECE }
    requires place { IsPlace piece.old begun }
    ensures found { (f : Contents) (ns : List ℕ) (before : Option (List ℕ))
        → HasBegun f ns before (C.left cert.old) piece.old begun
        → IsChecked f begun.no.0 solid.now
        → IfOk result (IsPartJudged f ns begun.no.0 before (C.left cert.new) piece.new) }
    ensures leaves { IfOk result (Leaves (C.left cert.old) (C.left cert.new) piece.new begun) }
    ensures reads { ReadsOn (CERT_LIMIT - begun.came) (C.left cert.old) (C.left cert.new)
        (C.faults cert.old) (C.faults cert.new) result }
    ensures more { IfOk result (λ judged. HasNext judged → C.can_read cert.new) }
{
    let mut checker = Checker::part(alloc, solid, begun.line)?;
    part_outcome(alloc, &mut checker, cert, piece, begun)
}

// Judges the part that has begun.
fn judge_part<C: Source>(
    alloc: Global,
    walker: &mut Walker<'_>,
    cert: &mut C,
    piece: &mut [u8],
    begun: PartStart,
) -> Result<PartJudged, Stop>
    requires ready { C.can_read cert.old }
    requires room { length piece.old ≡ PIECE }
    requires place { IsPlace piece.old begun }
    ensures file { walker.new ≡ walker.old }
    ensures found { (ns : List ℕ) (before : Option (List ℕ))
        → HasBegun walker.old ns before (C.left cert.old) piece.old begun
        → IfOk result (IsPartJudged walker.old ns begun.no.0 before (C.left cert.new) piece.new) }
    ensures leaves { IfOk result (Leaves (C.left cert.old) (C.left cert.new) piece.new begun) }
    ensures reads { ReadsOn (CERT_LIMIT - begun.came) (C.left cert.old) (C.left cert.new)
        (C.faults cert.old) (C.faults cert.new) result }
    ensures more { IfOk result (λ judged. HasNext judged → C.can_read cert.new) }
{
    let solid = match part_solid(alloc, walker, begun.no)? {
        Ok(solid) => solid,
        Err(reply) => {
            let reply = decided_reply(cert, piece, begun.came, reply)?;
            return Ok(PartJudged::Decided(reply));
        }
    };
    let outcome = judge_part_lines(alloc, &solid, cert, piece, begun);
    drop(solid);
    outcome
}

// The reply for a book whose first part has begun, by a walker of the file.
fn parts_reply<C: Source>(
    alloc: Global,
    walker: &mut Walker<'_>,
    cert: &mut C,
    piece: &mut [u8],
    begun: PartStart,
) -> Result<Reply, Stop>
    requires ready { C.can_read cert.old }
    requires room { length piece.old ≡ PIECE }
    requires place { IsPlace piece.old begun }
    ensures found { (before : Option (List ℕ))
        → HasBegun walker.old [] before (C.left cert.old) piece.old begun
        → IfOk result (IsReply (λ certificate. OfVerify certificate walker.old) before) }
    ensures whole { IfOk result (λ reply. ReadsCertificate (C.left cert.new) reply.answer) }
    ensures reads { ReadsOn (CERT_LIMIT - begun.came) (C.left cert.old) (C.left cert.new)
        (C.faults cert.old) (C.faults cert.new) result }
{
    let mut out = Out::new(alloc);
    let mut begun = begun;
    'parts: loop {
        match judge_part(alloc, walker, cert, piece, begun)? {
            PartJudged::Next(next) => {
                put_accepted(&mut out, begun.no)?;
                begun = next;
            }
            PartJudged::Last => {
                put_accepted(&mut out, begun.no)?;
                return Ok(Reply {
                    answer: Answer::Done,
                    text: out.into_bytes(),
                });
            }
            PartJudged::Decided(reply) => return Ok(reply),
        }
    }
}

/// The reply for a book whose first part has begun. It is judged while it comes, one solid at a time, and is read to its
/// end whatever is found.
pub fn book_reply<C: Source>(
    alloc: Global,
    file: &File,
    cert: &mut C,
    piece: &mut [u8],
    begun: PartStart,
) -> Result<Reply, Stop>
    requires ready { C.can_read cert.old }
    requires room { length piece.old ≡ PIECE }
    requires place { IsPlace piece.old begun }
    ensures found { (before : Option (List ℕ))
        → HasBegun file.now [] before (C.left cert.old) piece.old begun
        → IfOk result (IsReply (λ certificate. OfVerify certificate file.now) before) }
    ensures whole { IfOk result (λ reply. ReadsCertificate (C.left cert.new) reply.answer) }
    ensures reads { ReadsOn (CERT_LIMIT - begun.came) (C.left cert.old) (C.left cert.new)
        (C.faults cert.old) (C.faults cert.new) result }
{
    let mut walker = Walker::new(alloc, file);
    let reply = parts_reply(alloc, &mut walker, cert, piece, begun);
    drop(walker);
    reply
}
