//! A checker of lines that are given whole.

use cert_lines::{Illegal, Judged, ParsedLine, ShellCounts, Version, judge};
use cert_state::{ShellState, loop_count};
use edge_uses::rows;
use iges_base::{EntryNo, NoMemory};
use solid_data::{ShellAt, Solid};
use std::alloc::Global;
use std::marker::Model;

/// What a line of a part of a book is.
#[derive(Clone, Copy)]
pub(crate) enum PartLine {
    /// It is a line of the part.
    More,
    /// It names the solid of the next part, whose first line has this number.
    Next { no: EntryNo, line: u64 },
}

/// Judges lines that are given whole, one after the other, against a solid. Once a line was Illegal, each call answers
/// the same.
#[derive(Drop)]
pub(crate) struct LineChecker<'a> {
    version: Version,
    solid: &'a Solid,
    limit: usize,
    failed: Option<Illegal>,
    number: u64,
    ended: bool,
    shell: u32,
    current: Option<ShellState>,
    waiting: Vec<ShellState>,
}

impl<'a> Model for LineChecker<'a> {
    ghost use Rattle.topo_certificate.specs.Matching.{CheckerState};

    ghost Value = { CheckerState };

    ghost view = { λ c. record { version = c.version; solid = c.solid.now; failed = c.failed; number = c.number; ended = c.ended; shell = c.shell; current = c.current; waiting = c.waiting.items } };

    ghost use Rattle.topo_certificate.specs.Room.{HasRoom};

    ghost invariant = { λ c. HasRoom c.limit (record { version = c.version; solid = c.solid.now; failed = c.failed; number = c.number; ended = c.ended; shell = c.shell; current = c.current; waiting = c.waiting.items }) };
}

ghost use Rattle.std.specs.Prelude.{◌≡◌, ℕ, ◌+◌, ◌<◌, ◌^◌, ◌-◌, length, IfOk, MatchOption};
ghost use Rattle.std.specs.Prelude.{◌≢◌};
ghost use Rattle.cert_lines.specs.Line.{CertLine, IsLine, solid as solid_named};
ghost use Rattle.cert_lines.specs.Parsed.{Means};
ghost use Rattle.cert_state.specs.Progress.{rows_of_shell, loops_of_shell};
ghost use Rattle.cert_state.specs.CheckState.{IsFresh};
ghost use Rattle.topo_certificate.specs.Matching.{AreWaiting};

// The directory number on a SOLID line; None for any other line.
fn solid_in(words: ParsedLine<'_>) -> Option<u32>
    ensures { MatchOption result ((line : CertLine) (n : ℕ) → Means words.entry line
        → line ≢ solid_named n) (λ n. (line : CertLine) → Means words.entry line
        → line ≡ solid_named n) }
{
    match words {
        ParsedLine::Solid(number) => Some(number),
        ParsedLine::Head(_)
        | ParsedLine::Shell(..)
        | ParsedLine::Edge(..)
        | ParsedLine::Corner(_)
        | ParsedLine::Point(..)
        | ParsedLine::Reach(_)
        | ParsedLine::Tally(_)
        | ParsedLine::End => None,
    }
}

/// The solid that a line names which may have so many bytes.
fn named_solid(line: &[u8], limit: usize) -> Option<u32>
    ensures { MatchOption result ((n : ℕ) → ¬ IsLine limit line.now (solid_named n))
        (λ n. IsLine limit line.now (solid_named n)) }
{
    match judge(line, limit) {
        Judged::Spelled(words) => solid_in(words),
        Judged::Misspelt | Judged::Long => None,
    }
}

/// How many loops the shell with this number, from 0, has.
fn loops_at(solid: &Solid, shell: u32) -> u64
    requires { shell < length solid.now.shells }
    ensures { result ≡ loops_of_shell solid.now (shell + 1) }
{
    solid.recall_numbering();
    loop_count(solid.shell(ShellAt(shell)).unwrap())
}

/// The shell with this number, from 0, of which no line was read.
fn state_of(
    alloc: Global,
    version: Version,
    solid: &Solid,
    shell: u32,
) -> Result<ShellState, NoMemory>
    requires { shell < length solid.now.shells }
    ensures { IfOk result (λ k. IsFresh version (rows_of_shell solid.now (shell + 1))
        (loops_of_shell solid.now (shell + 1)) k) }
{
    solid.recall_numbering();
    let rows = rows(alloc, solid, ShellAt(shell))?;
    let loops = loops_at(solid, shell);
    ShellState::of(alloc, version, rows, loops)
}

/// The shells of a solid, the last one first.
fn states_of(alloc: Global, version: Version, solid: &Solid) -> Result<Vec<ShellState>, NoMemory>
    ensures { IfOk result (λ waiting. AreWaiting version solid.now 0 waiting.items) }
{
    let count = solid.shell_count();
    let mut waiting = Vec::with_capacity(alloc, count)?;
    'shells: for k in 0..count {
        waiting.push(state_of(alloc, version, solid, (count - 1 - k) as u32)?)?;
    }
    Ok(waiting)
}

impl<'a> LineChecker<'a> {
    ghost use Rattle.std.specs.Prelude.{◌≡◌, ◌↔◌, ◌+◌, ℕ, ◌<◌, ◌≤◌, ◌^◌, List, [], ◌∷◌, length, IsTrue, IfOk, IfNone, IfSome, MatchOption, MatchResult, Err, Some, true, false};
    ghost use Rattle.std.specs.Bool.{MatchBool};
    ghost use Rattle.cert_lines.specs.Line.{CertLine, HasSpelling, IsLine, line_limit, solid, shell, end};
    ghost use Rattle.cert_lines.specs.Parsed.{Means, IsRowLine};
    ghost use Rattle.cert_state.specs.Progress.{progress_from_latest, FitsLine};
    ghost use Rattle.topo_certificate.specs.Legal.{IsBadLine, BeginsNext, FitsPart};
    ghost use Rattle.topo_certificate.specs.Part.{IsPartLine, TakesNextLine};
    ghost use Rattle.topo_certificate.specs.Matching.{IsAt, IsOfSame};
    ghost use Rattle.topo_certificate.specs.Room.{dues_of, TakesLine};
    ghost use Rattle.cert_text.specs.declared.fault.Illegal.TheVariants.{Missing as IsMissing};

    /// A checker whose first line has this number, and whose lines may have so many bytes. It takes all the memory that a
    /// check needs.
    pub(crate) fn from_line(
        alloc: Global,
        solid: &'a Solid,
        version: Version,
        first: u64,
        limit: usize,
    ) -> Result<LineChecker<'a>, NoMemory>
        requires few { first ≤ 2 ^ 32 }
        requires limit { limit ≡ line_limit solid.now }
        ensures version { IfOk result (λ c. c.version ≡ version) }
        ensures solid { IfOk result (λ c. c.solid ≡ solid.now) }
        ensures begun { IfOk result (λ c. IsAt first c []) }
    {
        solid.recall_numbering();
        let waiting = states_of(alloc, version, solid)?;
        Ok(LineChecker {
            version,
            solid,
            limit,
            failed: None,
            number: first,
            ended: false,
            shell: 0,
            current: None,
            waiting,
        })
    }

    /// Keeps that the lines are not legal.
    fn fail(&mut self, illegal: Illegal) -> Result<(), Illegal>
        ensures fault { result ≡ Err illegal }
        ensures failed { self.new.failed ≡ Some illegal }
        ensures same { IsOfSame self.old self.new }
    {
        self.failed = Some(illegal);
        Err(illegal)
    }

    /// Whether no line of the shell at hand is due.
    fn is_done(&self) -> bool
        ensures { IsTrue result ↔ (dues_of self.now.current ≡ 0) }
    {
        match &self.current {
            Some(current) => current.is_done(),
            None => true,
        }
    }

    // Whether a SHELL line fits; where it does, its shell is the one at hand.
    fn take_shell(&mut self, number: u32, counts: &ShellCounts) -> bool
        requires { self.old.ended ≡ false }
        ensures line { TakesLine self.old self.new (shell number counts.now) result }
        ensures same { IsOfSame self.old self.new }
        ensures number { result ≡ false → self.new.number ≡ self.old.number }
    {
        if !self.is_done() || number != self.shell + 1 {
            return false;
        }
        let Some(next) = self.waiting.last() else {
            return false;
        };
        if !next.has_counts(counts) {
            return false;
        }
        self.current = self.waiting.pop();
        self.shell = number;
        self.number += 1;
        true
    }

    // Whether END fits; where it does, no line fits after it.
    fn take_end(&mut self) -> bool
        requires { self.old.ended ≡ false }
        ensures line { TakesLine self.old self.new end result }
        ensures same { IsOfSame self.old self.new }
        ensures number { result ≡ false → self.new.number ≡ self.old.number }
    {
        if !self.is_done() || !self.waiting.is_empty() {
            return false;
        }
        self.ended = true;
        self.number += 1;
        true
    }

    /// Takes an edge, corner, point, reach or TALLY line, exactly where it fits.
    fn take_row_line(&mut self, words: ParsedLine<'_>) -> bool
        requires { self.old.ended ≡ false }
        ensures line { (line : CertLine) → Means words.entry line → HasSpelling line
            → IsRowLine line → TakesLine self.old self.new line result }
        ensures same { IsOfSame self.old self.new }
        ensures number { result ≡ false → self.new.number ≡ self.old.number }
    {
        let Some(current) = &mut self.current else {
            return false;
        };
        if !current.take(words) {
            return false;
        }
        self.number += 1;
        true
    }

    /// Takes a line, exactly where it fits.
    fn take(&mut self, words: ParsedLine<'_>) -> bool
        ensures line { (line : CertLine) → Means words.entry line → HasSpelling line
            → TakesLine self.old self.new line result }
        ensures same { IsOfSame self.old self.new }
        ensures number { result ≡ false → self.new.number ≡ self.old.number }
    {
        if self.ended {
            return false;
        }
        match words {
            ParsedLine::Head(_) | ParsedLine::Solid(_) => false,
            ParsedLine::Shell(number, counts) => self.take_shell(number, &counts),
            ParsedLine::End => self.take_end(),
            ParsedLine::Edge(..)
            | ParsedLine::Corner(_)
            | ParsedLine::Point(..)
            | ParsedLine::Reach(_)
            | ParsedLine::Tally(_) => self.take_row_line(words),
        }
    }

    /// The number of the next line.
    pub(crate) fn next_number(&self) -> u64
        ensures { result ≡ self.now.number }
    {
        self.number
    }

    /// Takes the edge, corner or reach line at the start of a text where it fits, in one pass over its bytes, and gives
    /// what follows it. Else nothing changes, though a line may fit.
    pub(crate) fn take_next<'t>(&mut self, text: &'t [u8]) -> Option<&'t [u8]>
        ensures line { IfSome result (λ after. TakesNextLine self.old self.new text.now after.now) }
        ensures same { IsOfSame self.old self.new }
        ensures refused { IfNone result (self.new ≡ self.old) }
    {
        if self.ended {
            return None;
        }
        let limit = self.limit;
        let Some(current) = &mut self.current else {
            return None;
        };
        let Some(after) = current.take_next(text, limit) else {
            return None;
        };
        self.number += 1;
        Some(after)
    }

    /// Judges a line as `line` does, where no fault was found.
    fn judge_line(&mut self, line: &[u8]) -> Result<(), Illegal>
        ensures line { (first : ℕ) (lines : List CertLine) → IsAt first self.old lines → MatchResult result
            (λ _. (l : CertLine) × IsLine (line_limit self.old.solid) line.now l × FitsLine self.old.solid (progress_from_latest self.old.version self.old.solid lines) l × IsAt first self.new (l ∷ lines))
            (λ bad. IsBadLine self.old.solid (FitsLine self.old.solid (progress_from_latest self.old.version self.old.solid lines)) (first + length lines) line.now bad × (self.new.failed ≡ Some bad)) }
        ensures same { IsOfSame self.old self.new }
    {
        match judge(line, self.limit) {
            Judged::Misspelt => self.fail(Illegal::Misspelt { line: self.number }),
            Judged::Long => self.fail(Illegal::Unfit { line: self.number }),
            Judged::Spelled(words) => {
                if self.take(words) {
                    Ok(())
                } else {
                    self.fail(Illegal::Unfit { line: self.number })
                }
            }
        }
    }

    /// Judges the next line, given with its LF: it is spelled and fits after the lines before it, or it is the first
    /// that is misspelt or unfit.
    pub(crate) fn line(&mut self, line: &[u8]) -> Result<(), Illegal>
        ensures line { (first : ℕ) (lines : List CertLine) → IsAt first self.old lines → MatchResult result
            (λ _. (l : CertLine) × IsLine (line_limit self.old.solid) line.now l × FitsLine self.old.solid (progress_from_latest self.old.version self.old.solid lines) l × IsAt first self.new (l ∷ lines))
            (λ bad. IsBadLine self.old.solid (FitsLine self.old.solid (progress_from_latest self.old.version self.old.solid lines)) (first + length lines) line.now bad × (self.new.failed ≡ Some bad)) }
        ensures stays { IfSome self.old.failed (λ bad. (result ≡ Err bad) × (self.new ≡ self.old)) }
        ensures same { IsOfSame self.old self.new }
    {
        if let Some(illegal) = self.failed {
            return Err(illegal);
        }
        self.judge_line(line)
    }

    /// Whether END may come now.
    fn may_end(&self) -> bool
        ensures { (first : ℕ) (lines : List CertLine) → IsAt first self.now lines → IsTrue result
            ↔ FitsLine self.now.solid (progress_from_latest self.now.version self.now.solid lines) end }
    {
        !self.ended && self.is_done() && self.waiting.is_empty()
    }

    /// The solid that a line names which begins the next part of a book.
    fn next_part(&self, line: &[u8]) -> Option<EntryNo>
        ensures { (first : ℕ) (lines : List CertLine) → IsAt first self.now lines → MatchOption result
            ((n : ℕ) → IsLine (line_limit self.now.solid) line.now (solid n) → ¬ BeginsNext self.now.solid (progress_from_latest self.now.version self.now.solid lines) n)
            (λ no. IsLine (line_limit self.now.solid) line.now (solid no.0) × BeginsNext self.now.solid (progress_from_latest self.now.version self.now.solid lines) no.0) }
    {
        // Nearly every line stops here, and so is judged once.
        if !self.may_end() {
            return None;
        }
        let Some(number) = named_solid(line, self.limit) else {
            return None;
        };
        if self.solid.entity().0 < number {
            Some(EntryNo(number))
        } else {
            None
        }
    }

    /// Judges the next line of a part of a book, given with its LF: as `line` does, but where END is due a line
    /// fits too that names a solid with a greater number. It begins the next part, and this checker stays as it was.
    pub(crate) fn line_of_part(&mut self, line: &[u8]) -> Result<PartLine, Illegal>
        ensures line { (first : ℕ) (lines : List CertLine) → IsAt first self.old lines → MatchResult result
            (IsPartLine self.old self.new first lines line.now)
            (λ bad. IsBadLine self.old.solid (FitsPart self.old.solid (progress_from_latest self.old.version self.old.solid lines)) (first + length lines) line.now bad × (self.new.failed ≡ Some bad)) }
        ensures stays { IfSome self.old.failed (λ bad. (result ≡ Err bad) × (self.new ≡ self.old)) }
        ensures same { IsOfSame self.old self.new }
    {
        if let Some(illegal) = self.failed {
            return Err(illegal);
        }
        if let Some(no) = self.next_part(line) {
            return Ok(PartLine::Next {
                no,
                line: self.number + 1,
            });
        }
        self.line(line)?;
        Ok(PartLine::More)
    }

    /// Whether END was the last line. Where it wasn't, the line after the last one is missing.
    pub(crate) fn finish(&mut self) -> Result<(), Illegal>
        ensures ended { (first : ℕ) (lines : List CertLine) → IsAt first self.old lines → MatchResult result
            (λ _. (progress_from_latest self.old.version self.old.solid lines).ended ≡ true)
            (λ bad. ((progress_from_latest self.old.version self.old.solid lines).ended ≡ false) × (bad ≡ IsMissing (first + length lines))) }
        ensures stays_ok { IfOk result (λ _. self.new ≡ self.old) }
        ensures stays { IfSome self.old.failed (λ bad. (result ≡ Err bad) × (self.new ≡ self.old)) }
        ensures same { IsOfSame self.old self.new }
    {
        if let Some(illegal) = self.failed {
            return Err(illegal);
        }
        if self.ended {
            Ok(())
        } else {
            self.fail(Illegal::Missing { line: self.number })
        }
    }
}
