//! The checker of a certificate's lines, which are given whole or in pieces.

ghost use Rattle.std.specs.Prelude.{◌≡◌, ◌+◌, ◌≤◌, ◌<◌, ◌^◌, [], ◌∷◌, ◌++◌, List, ℕ, None, Some, Err, true, false, take, length, IfNone, IfOk, IfSome, IsTrue, MatchResult, vec_len};
ghost use Rattle.cert_lines.specs.Line.{CertLine, IsLine, cut_lines, line_limit};
ghost use Rattle.iges_base.specs.Ended.{ended};
ghost use Rattle.iges_base.specs.InLine.{is_in_line};
ghost use Rattle.solid_data.specs.SolidData.{SolidData};
ghost use Rattle.topo_certificate.specs.Feeding.{StandsAfter, IsFed, IsFedPart, IsFedUpTo};
ghost use Rattle.topo_certificate.specs.PartEnds.{IsEndedBy, IsPartStep};
ghost use Rattle.cert_lines.specs.declared.version.Version.{Version};
ghost use Rattle.cert_lines.specs.declared.version.Version.TheVariants.{Two};
ghost use Rattle.cert_text.specs.declared.fault.Illegal.TheVariants.{Missing};
ghost use Rattle.cert_state.specs.Progress.{progress_after, FitsLine};
ghost use Rattle.topo_certificate.specs.Legal.{IsLegal, IsFirstBad, IsPartBad, IsBadLine};
ghost use Rattle.topo_certificate.specs.Matching.{IsOfSame};
ghost use Rattle.topo_certificate.specs.Part.{TakesNextLine};

use crate::line_checker::{LineChecker, PartLine};
use cert_lines::{Illegal, Version, first_ended};
use cert_state::limit_of;
use iges_base::{EntryNo, NoMemory};
use solid_data::Solid;
use std::alloc::Global;
use std::marker::Model;

/// What a checker says of a piece of a part of a book.
#[derive(Clone, Copy, PartialEq, Eq)]
pub enum PartStep {
    /// The whole piece was taken, and the part goes on.
    More,
    /// A line ended the part: the solid that it names, the number of the line after it, and how many bytes of the piece
    /// were taken, those up to its LF.
    Next { no: EntryNo, line: u64, used: usize },
}

/// Judges the lines of a certificate after its first two, or those of a part of a book, one after the other, against a
/// solid. They come whole by `line`, or in pieces that are cut anywhere: by `feed`, and for a part of a book by
/// `feed_part`. Each line costs time in proportion to its bytes, and no call takes memory after `new` or `part`: beside
/// the rows of the shells a checker keeps eight bytes a row, a byte for each face and for each loop without an edge, and
/// of an unfinished line as many bytes as a line may have. Once a line was Illegal, each call answers the same.
#[derive(Drop)]
pub struct Checker<'a> {
    checker: LineChecker<'a>,
    limit: usize,
    kept: Vec<u8>,
    failed: Option<Illegal>,
}

impl<'a> Model for Checker<'a> {
    ghost use Rattle.cert_lines.specs.Line.{line_limit};
    ghost use Rattle.std.specs.Prelude.{◌≡◌, ◌+◌, ◌≤◌, vec_len, vec_capacity};
    ghost use Rattle.topo_certificate.specs.Feeding.{FedState};

    ghost Value = { FedState };

    ghost view = { λ c. record { checker = c.checker; kept = c.kept.items; failed = c.failed } };

    ghost invariant = { λ c. (c.limit ≡ line_limit c.checker.solid) × (vec_len c.kept ≤ c.limit) × (c.limit + 1 ≤ vec_capacity c.kept) };
}

impl<'a> Checker<'a> {
    // A checker of a certificate of this version, whose next line has this number.
    fn from_line(
        alloc: Global,
        solid: &'a Solid,
        version: Version,
        first: u64,
    ) -> Result<Checker<'a>, NoMemory>
        requires { first ≤ 2 ^ 32 }
        ensures stands { IfOk result (λ c. StandsAfter version solid.now first [] [] c) }
        ensures fed { IfOk result (λ c. IsFed version solid.now first [] c) }
        ensures fed_part { IfOk result (λ c. IsFedPart version solid.now first [] c) }
    {
        let limit = limit_of(solid);
        let kept = Vec::with_capacity(alloc, limit + 1)?;
        let checker = LineChecker::from_line(alloc, solid, version, first, limit)?;
        Ok(Checker {
            checker,
            limit,
            kept,
            failed: None,
        })
    }

    /// A checker of the lines of a certificate of this version, of which the next one is line 3. It takes all the
    /// memory that a check needs, and errs only where memory runs out.
    pub fn new(alloc: Global, solid: &'a Solid, version: Version) -> Result<Checker<'a>, NoMemory>
        ensures stands { IfOk result (λ c. StandsAfter version solid.now 3 [] [] c) }
        ensures fed { IfOk result (λ c. IsFed version solid.now 3 [] c) }
    {
        Checker::from_line(alloc, solid, version, 3)
    }

    /// A checker of the lines of a part of a book, of which the next one has this number, from 1. It takes all the
    /// memory that a check of the part needs, and errs only where memory runs out.
    pub fn part(alloc: Global, solid: &'a Solid, first: u64) -> Result<Checker<'a>, NoMemory>
        requires { first ≤ 2 ^ 32 }
        ensures stands { IfOk result (λ c. StandsAfter Two solid.now first [] [] c) }
        ensures fed { IfOk result (λ c. IsFed Two solid.now first [] c) }
        ensures fed_part { IfOk result (λ c. IsFedPart Two solid.now first [] c) }
    {
        Checker::from_line(alloc, solid, Version::Two, first)
    }

    // Keeps the bytes that a line may have room for.
    fn keep(&mut self, bytes: &[u8])
        ensures kept { self.new.kept ≡ take (line_limit self.old.checker.solid) (self.old.kept
            ++ bytes.now) }
        ensures checker { self.new.checker ≡ self.old.checker }
        ensures failed { self.new.failed ≡ self.old.failed }
    {
        let room = self.limit - self.kept.len();
        let count = if bytes.len() < room {
            bytes.len()
        } else {
            room
        };
        self.kept.extend_from_slice(&bytes[..count]).unwrap();
    }

    // Keeps the fault that was found.
    fn fail(&mut self, bad: Illegal) -> Result<(), Illegal>
        ensures fault { result ≡ Err bad }
        ensures failed { self.new.failed ≡ Some bad }
        ensures checker { self.new.checker ≡ self.old.checker }
    {
        self.failed = Some(bad);
        Err(bad)
    }

    /// Judges the next line, given whole with its LF: it is spelled and fits after the lines before it, or it is the
    /// first that is misspelt or unfit. It is for lines that begin where `feed` has left none unfinished.
    pub fn line(&mut self, line: &[u8]) -> Result<(), Illegal>
        ensures line { (v : Version) (s : SolidData) (first : ℕ) (read : List CertLine) → StandsAfter v s first read [] self.old → MatchResult result
            (λ _. (l : CertLine) × IsLine (line_limit s) line.now l × FitsLine s (progress_after v s read) l × StandsAfter v s first (read ++ l ∷ []) [] self.new)
            (λ bad. IsBadLine s (FitsLine s (progress_after v s read)) (first + length read) line.now bad × (self.new.failed ≡ Some bad)) }
        ensures answer { MatchResult result (λ _. self.new.failed ≡ None)
            (λ bad. self.new.failed ≡ Some bad) }
        ensures stays { IfSome self.old.failed (λ bad. (result ≡ Err bad) × (self.new ≡ self.old)) }
        ensures same { IsOfSame self.old.checker self.new.checker }
    {
        if let Some(bad) = self.failed {
            return Err(bad);
        }
        match self.checker.line(line) {
            Ok(()) => Ok(()),
            Err(bad) => self.fail(bad),
        }
    }

    // Judges the line that began with what is kept and ends with these bytes, the last of which is LF.
    fn end_line(&mut self, line: &[u8]) -> Result<(), Illegal>
        requires open { self.old.failed ≡ None }
        requires some { 0 < length line.now }
        ensures fed { (v : Version) (s : SolidData) (first : ℕ) (text front : List ℕ)
            → IsTrue (is_in_line front) → line.now ≡ ended front → IsFed v s first text self.old
            → IsFed v s first (text ++ line.now) self.new }
        ensures kept { MatchResult result (λ _. (self.new.failed ≡ None) × (self.new.kept ≡ []))
            (λ bad. self.new.failed ≡ Some bad) }
        ensures same { IsOfSame self.old.checker self.new.checker }
    {
        if self.kept.is_empty() {
            return match self.checker.line(line) {
                Ok(()) => Ok(()),
                Err(bad) => self.fail(bad),
            };
        }
        self.keep(&line[..line.len() - 1]);
        self.kept.extend_from_slice(b"\n").unwrap();
        let judged = self.checker.line(self.kept.as_slice());
        self.kept.truncate(0);
        match judged {
            Ok(()) => Ok(()),
            Err(bad) => self.fail(bad),
        }
    }

    // Takes the edge, corner or reach line at the start of a text where it fits and no unfinished line came before it,
    // and gives what follows it. Else nothing changes.
    fn take_line<'t>(&mut self, text: &'t [u8]) -> Option<&'t [u8]>
        ensures line { IfSome result (λ after. TakesNextLine self.old.checker self.new.checker text.now after.now) }
        ensures kept { IfSome result (λ _. (self.old.kept ≡ []) × (self.new.kept ≡ [])) }
        ensures failed { self.new.failed ≡ self.old.failed }
        ensures refused { IfNone result (self.new ≡ self.old) }
        ensures same { IsOfSame self.old.checker self.new.checker }
    {
        if !self.kept.is_empty() {
            return None;
        }
        self.checker.take_next(text)
    }

    // Takes the lines at the start of a text one after the other as long as `take_line` does, and gives what is left.
    fn take_lines<'t>(&mut self, text: &'t [u8]) -> &'t [u8]
        requires { self.old.failed ≡ None }
        ensures fed { IsFedUpTo IsFed self.old text.now self.new result.now }
        ensures fed_part { IsFedUpTo IsFedPart self.old text.now self.new result.now }
        ensures within { length result.now ≤ length text.now }
        ensures still { self.new.failed ≡ None }
        ensures same { IsOfSame self.old.checker self.new.checker }
    {
        let mut rest = text;
        'taken: while let Some(after) = self.take_line(rest) {
            rest = after;
        }
        rest
    }

    /// Takes the next bytes, and judges each line at its LF. A fault is that of the first line that is misspelt or
    /// unfit.
    pub fn feed(&mut self, piece: &[u8]) -> Result<(), Illegal>
        ensures fed { (v : Version) (s : SolidData) (first : ℕ) (text : List ℕ)
            → IsFed v s first text self.old → IsFed v s first (text ++ piece.now) self.new }
        ensures answer { MatchResult result (λ _. self.new.failed ≡ None)
            (λ bad. self.new.failed ≡ Some bad) }
        ensures stays { IfSome self.old.failed (λ bad. (result ≡ Err bad) × (self.new ≡ self.old)) }
        ensures same { IsOfSame self.old.checker self.new.checker }
    {
        if let Some(bad) = self.failed {
            return Err(bad);
        }
        let mut rest = self.take_lines(piece);
        'lines: while let Some((line, after)) = first_ended(rest) {
            self.end_line(line)?;
            rest = self.take_lines(after);
        }
        self.keep(rest);
        Ok(())
    }

    // Judges the line of a part that began with what is kept and ends with these bytes, the last of which is LF.
    fn end_part_line(&mut self, line: &[u8]) -> Result<PartLine, Illegal>
        requires open { self.old.failed ≡ None }
        requires some { 0 < length line.now }
        ensures fed { (v : Version) (s : SolidData) (first : ℕ) (text front : List ℕ) → IsTrue (is_in_line front) → line.now ≡ ended front → IsFedPart v s first text self.old →
            MatchResult result (IsEndedBy v s first (text ++ line.now) self.new) (λ _. IsFedPart v s first (text ++ line.now) self.new) }
        ensures kept { MatchResult result (λ _. (self.new.failed ≡ None) × (self.new.kept ≡ []))
            (λ bad. self.new.failed ≡ Some bad) }
        ensures same { IsOfSame self.old.checker self.new.checker }
    {
        if self.kept.is_empty() {
            return match self.checker.line_of_part(line) {
                Ok(told) => Ok(told),
                Err(bad) => {
                    self.failed = Some(bad);
                    Err(bad)
                }
            };
        }
        self.keep(&line[..line.len() - 1]);
        self.kept.extend_from_slice(b"\n").unwrap();
        let judged = self.checker.line_of_part(self.kept.as_slice());
        self.kept.clear();
        match judged {
            Ok(told) => Ok(told),
            Err(bad) => {
                self.failed = Some(bad);
                Err(bad)
            }
        }
    }

    /// Takes the next bytes of a part of a book, and judges each line at its LF as `feed` does. But where END is due
    /// a line fits too that names a solid with a greater number: it begins the next part, and no byte after its LF is
    /// taken. No call may come after that. A part that END ends is finished by `finish`.
    pub fn feed_part(&mut self, piece: &[u8]) -> Result<PartStep, Illegal>
        ensures step { (v : Version) (s : SolidData) (first : ℕ) (text : List ℕ)
            → IsFedPart v s first text self.old → MatchResult result
            (IsPartStep v s first text piece.now self.new)
            (λ _. IsFedPart v s first (text ++ piece.now) self.new) }
        ensures answer { MatchResult result (λ _. self.new.failed ≡ None)
            (λ bad. self.new.failed ≡ Some bad) }
        ensures stays { IfSome self.old.failed (λ bad. (result ≡ Err bad) × (self.new ≡ self.old)) }
        ensures same { IsOfSame self.old.checker self.new.checker }
    {
        if let Some(bad) = self.failed {
            return Err(bad);
        }
        let mut left = self.take_lines(piece);
        'lines: while let Some((line, after)) = first_ended(left) {
            let told = self.end_part_line(line)?;
            match told {
                PartLine::More => left = self.take_lines(after),
                PartLine::Next { no, line } => {
                    let used = piece.len() - after.len();
                    return Ok(PartStep::Next { no, line, used });
                }
            }
        }
        self.keep(left);
        Ok(PartStep::More)
    }

    /// Whether END was the last line. A rest without LF is misspelt; where END wasn't the last line, the line after
    /// the last one is missing.
    pub fn finish(&mut self) -> Result<(), Illegal>
        ensures fed { (v : Version) (s : SolidData) (first : ℕ) (text : List ℕ)
            → IsFed v s first text self.old → MatchResult result (λ _. IsLegal v s (cut_lines text))
            (λ bad. IsFirstBad v s first (cut_lines text) bad) }
        ensures part { (v : Version) (s : SolidData) (first : ℕ) (text : List ℕ)
            → IsFedPart v s first text self.old → MatchResult result
            (λ _. IsLegal v s (cut_lines text)) (λ bad. IsPartBad v s first (cut_lines text) bad) }
        ensures ended { (v : Version) (s : SolidData) (first : ℕ) (read : List CertLine) → StandsAfter v s first read [] self.old → MatchResult result
            (λ _. (progress_after v s read).ended ≡ true)
            (λ bad. ((progress_after v s read).ended ≡ false) × (bad ≡ Missing (first + length read))) }
        ensures stays_ok { MatchResult result (λ _. self.new ≡ self.old)
            (λ bad. self.new.failed ≡ Some bad) }
        ensures stays { IfSome self.old.failed (λ bad. (result ≡ Err bad) × (self.new ≡ self.old)) }
        ensures same { IsOfSame self.old.checker self.new.checker }
    {
        if let Some(bad) = self.failed {
            return Err(bad);
        }
        if !self.kept.is_empty() {
            let line = self.checker.next_number();
            return self.fail(Illegal::Misspelt { line });
        }
        match self.checker.finish() {
            Ok(()) => Ok(()),
            Err(bad) => self.fail(bad),
        }
    }
}
