//! Books that are held whole.

ghost use Rattle.cert_lines.specs.Line.{cut_lines};
ghost use Rattle.cert_lines.specs.Opening.{Opens};
ghost use Rattle.cert_lines.specs.declared.version.Version.TheVariants.{Two, Three};
ghost use Rattle.certificate_commands.specs.Books.{BeginsPart, IsHeldPart, StepsIn};
ghost use Rattle.certificate_commands.specs.Judging.{IsChecked};
ghost use Rattle.iges_params.specs.Contents.{Contents};
ghost use Rattle.solid_data.specs.SolidData.{SolidData};
ghost use Rattle.topo_certificate.specs.Feeding.{IsFedPart};
ghost use Rattle.command_replies.specs.Due.{OfText};
ghost use Rattle.certificate_commands.specs.Due.{OfUpgrade};
ghost use Rattle.command_replies.specs.declared.answer.Answer.{Answer as Answered};
ghost use Rattle.std.specs.Prelude.{◌≡◌, ◌+◌, ◌≤◌, ◌++◌, [], List, ℕ, MatchOption, length, IfOk};

use crate::books::{NextSolid, feed};
use crate::checking::part_solid;
use brep_walk::Walker;
use cert_text::CERT_LIMIT;
use command_replies::{Reply, illegal};
use iges_base::{EntryNo, NoMemory};
use iges_params::File;
use solid_data::Solid;
use std::alloc::Global;
use topo_certificate::Checker;

/// What judging a part of a book that is held whole came to.
#[derive(Drop)]
pub enum HeldPart {
    /// It is good, and the next one begins.
    Next(NextSolid),
    /// It is good, and the last one.
    Last,
    /// This is the reply.
    Decided(Reply),
}

// Judges the lines of a part, by a checker that was given none of them, which are in this rest of a book.
fn held_outcome(alloc: Global, checker: &mut Checker<'_>, rest: &[u8]) -> Result<HeldPart, NoMemory>
    requires { (s : SolidData) × (line : ℕ) × IsFedPart Two s line [] checker.old }
    ensures found { (f : Contents) (s : SolidData) (certificate : List ℕ) (ns : List ℕ)
        → (front : List ℕ) (n : ℕ) (line : ℕ)
        → certificate ≡ front ++ rest.now → length certificate ≤ CERT_LIMIT
        → BeginsPart f ns front n line → IsChecked f n s → IsFedPart Two s line [] checker.old
        → IfOk result (IsHeldPart f certificate ns n rest.now) }
    ensures further { (s : SolidData) (line : ℕ) → IsFedPart Two s line [] checker.old
        → IfOk result (StepsIn line rest.now) }
{
    if let Some(next) = feed(checker, rest) {
        return Ok(HeldPart::Next(next));
    }
    match checker.finish() {
        Ok(()) => Ok(HeldPart::Last),
        Err(bad) => Ok(HeldPart::Decided(illegal(alloc, bad)?)),
    }
}

// Judges the lines of the part of this solid, which are in this rest of a book; the first of them has this number.
fn judge_held_lines(
    alloc: Global,
    solid: &Solid,
    line: u64,
    rest: &[u8],
) -> Result<HeldPart, NoMemory>
    requires { line + length rest.now ≤ CERT_LIMIT + 3 }
    ensures found { (f : Contents) (certificate : List ℕ) (ns : List ℕ) (front : List ℕ) (n : ℕ)
        → certificate ≡ front ++ rest.now → length certificate ≤ CERT_LIMIT
        → BeginsPart f ns front n line → IsChecked f n solid.now
        → IfOk result (IsHeldPart f certificate ns n rest.now) }
    ensures further { IfOk result (StepsIn line rest.now) }
{
    let mut checker = Checker::part(alloc, solid, line)?;
    held_outcome(alloc, &mut checker, rest)
}

// Judges the part of this solid, which has this rest of the book after the line that names it; the next line has this
// number.
fn judge_held(
    alloc: Global,
    walker: &mut Walker<'_>,
    no: EntryNo,
    line: u64,
    rest: &[u8],
) -> Result<HeldPart, NoMemory>
    requires { line + length rest.now ≤ CERT_LIMIT + 3 }
    ensures file { walker.new ≡ walker.old }
    ensures found { (certificate : List ℕ) (ns : List ℕ) (front : List ℕ)
        → certificate ≡ front ++ rest.now → length certificate ≤ CERT_LIMIT
        → BeginsPart walker.old ns front no.0 line
        → IfOk result (IsHeldPart walker.old certificate ns no.0 rest.now) }
    ensures further { IfOk result (StepsIn line rest.now) }
{
    let solid = match part_solid(alloc, walker, no)? {
        Ok(solid) => solid,
        Err(reply) => return Ok(HeldPart::Decided(reply)),
    };
    let outcome = judge_held_lines(alloc, &solid, line, rest);
    drop(solid);
    outcome
}

// The reply for a book that isn't accepted, by a walker of the file; None for one that is.
fn parts_refusal(
    alloc: Global,
    walker: &mut Walker<'_>,
    certificate: &[u8],
    no: EntryNo,
    rest: &[u8],
) -> Result<Option<Reply>, NoMemory>
    requires few { length certificate.now ≤ CERT_LIMIT }
    requires opens { Opens certificate.now Three no.0 (cut_lines rest.now) }
    ensures { IfOk result (λ r. MatchOption r
        ((a : Answered) (t : List ℕ) → OfText certificate.now a t → OfUpgrade certificate.now walker.old a t)
        (λ reply. OfUpgrade certificate.now walker.old reply.answer reply.text)) }
{
    let mut no = no;
    let mut line = 3;
    let mut rest = rest;
    'parts: loop {
        match judge_held(alloc, walker, no, line, rest)? {
            HeldPart::Next(next) => {
                no = next.no;
                line = next.line;
                rest = &rest[next.used..];
            }
            HeldPart::Last => return Ok(None),
            HeldPart::Decided(reply) => return Ok(Some(reply)),
        }
    }
}

/// The reply for a book that isn't accepted; None for one that is. After the line that names its first solid it has this
/// rest.
pub fn book_refusal(
    alloc: Global,
    file: &File,
    certificate: &[u8],
    no: EntryNo,
    rest: &[u8],
) -> Result<Option<Reply>, NoMemory>
    requires few { length certificate.now ≤ CERT_LIMIT }
    requires opens { Opens certificate.now Three no.0 (cut_lines rest.now) }
    ensures { IfOk result (λ r. MatchOption r
        ((a : Answered) (t : List ℕ) → OfText certificate.now a t → OfUpgrade certificate.now file.now a t)
        (λ reply. OfUpgrade certificate.now file.now reply.answer reply.text)) }
{
    let mut walker = Walker::new(alloc, file);
    let refusal = parts_refusal(alloc, &mut walker, certificate, no, rest);
    drop(walker);
    refusal
}
