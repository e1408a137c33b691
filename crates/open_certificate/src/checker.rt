//! The checker of the lines of an open shell's certificate.

use crate::parsed::{OpenCounts, ParsedOpenLine, read_line};
use crate::state::OpenState;
use cert_lines::Illegal;
use edge_uses::rows;
use iges_base::NoMemory;
use solid_data::{ShellAt, Solid};
use std::alloc::Global;
use std::marker::Model;

/// Judges the lines of a certificate of an open shell after its first, one after the other. Each line costs time in
/// proportion to its bytes, and none takes memory. Once a line was Illegal, each call answers the same.
#[derive(Drop)]
pub struct OpenChecker<'a> {
    solid: &'a Solid,
    failed: Option<Illegal>,
    number: u64,
    ended: bool,
    shell: OpenState,
}

impl<'a> Model for OpenChecker<'a> {
    ghost use Rattle.open_certificate.specs.CheckState.{OpenCheckerState};

    ghost Value = { OpenCheckerState };

    ghost view = { λ c. record { solid = c.solid.now; failed = c.failed; number = c.number; ended = c.ended; shell = c.shell } };

    ghost use Rattle.open_certificate.specs.CheckState.{HasRoom};

    ghost invariant = { λ c. HasRoom (record { solid = c.solid.now; failed = c.failed; number = c.number; ended = c.ended; shell = c.shell }) };
}

ghost use Rattle.std.specs.Prelude.{◌≡◌, [], IfOk, false};
ghost use Rattle.open_certificate.specs.Legal.{IsOpenShell};
ghost use Rattle.open_certificate.specs.CheckState.{MatchesLines, dues};

/// The shell of the solid, of which no line was read.
fn state_of(alloc: Global, solid: &Solid) -> Result<OpenState, NoMemory>
    requires { IsOpenShell solid.now }
    ensures tells { IfOk result (λ k. MatchesLines solid.now [] k) }
    ensures dues { IfOk result (λ k. dues k ≡ 0) }
    ensures begun { IfOk result (λ k. k.begun ≡ false) }
{
    let entity = solid.entity();
    let rows = rows(alloc, solid, ShellAt(0))?;
    OpenState::of(alloc, entity, rows)
}

impl<'a> OpenChecker<'a> {
    ghost use Rattle.std.specs.Prelude.{◌≡◌, ◌↔◌, ◌+◌, ◌<◌, ◌^◌, List, [], ◌∷◌, IsTrue, IfOk, IfSome, MatchResult, Err, Some, true, false};
    ghost use Rattle.edge_uses.specs.ShellRows.{EndsMeet};
    ghost use Rattle.open_certificate.specs.Legal.{IsOpenShell, AllJoin};
    ghost use Rattle.open_certificate.specs.Line.{OpenLine, HasSpelling, IsSpelled, shell, end};
    ghost use Rattle.open_certificate.specs.Parsed.{Means, IsRowLine};
    ghost use Rattle.open_certificate.specs.Progress.{progress_from_latest, FitsLine};
    ghost use Rattle.open_certificate.specs.Legal.{IsBadLine};
    ghost use Rattle.open_certificate.specs.CheckState.{IsAt, TakesLine};
    ghost use Rattle.cert_text.specs.declared.fault.Illegal.TheVariants.{Missing as IsMissing};

    /// A checker of which the next line is line 2. The solid has one shell, whose entity is the solid's own, and whose
    /// loops join: without that the lines that are taken don't show that the shell is sound. It takes all the memory that a
    /// check needs, and errs only where memory runs out.
    pub fn new(alloc: Global, solid: &'a Solid) -> Result<OpenChecker<'a>, NoMemory>
        requires { IsOpenShell solid.now }
        ensures solid { IfOk result (λ c. c.solid ≡ solid.now) }
        ensures begun { IfOk result (λ c. IsAt c []) }
    {
        let shell = state_of(alloc, solid)?;
        Ok(OpenChecker {
            solid,
            failed: None,
            number: 2,
            ended: false,
            shell,
        })
    }

    /// Keeps that the lines are not legal.
    fn fail(&mut self, illegal: Illegal) -> Result<(), Illegal>
        ensures fault { result ≡ Err illegal }
        ensures failed { self.new.failed ≡ Some illegal }
        ensures solid { self.new.solid ≡ self.old.solid }
    {
        self.failed = Some(illegal);
        Err(illegal)
    }

    fn take_shell(&mut self, words: &OpenCounts) -> bool
        requires { self.old.ended ≡ false }
        ensures line { TakesLine self.old self.new
            (shell words.now.shell words.now.rows words.now.edges words.now.corners words.now.faces words.now.borders) result }
        ensures solid { self.new.solid ≡ self.old.solid }
        ensures number { result ≡ false → self.new.number ≡ self.old.number }
    {
        if !self.shell.take_shell(words) {
            return false;
        }
        self.number += 1;
        true
    }

    fn take_end(&mut self) -> bool
        requires { self.old.ended ≡ false }
        ensures line { TakesLine self.old self.new end result }
        ensures solid { self.new.solid ≡ self.old.solid }
        ensures number { result ≡ false → self.new.number ≡ self.old.number }
    {
        if !self.shell.is_done() {
            return false;
        }
        self.ended = true;
        self.number += 1;
        true
    }

    /// Takes an edge, corner, path, point, reach or border line, exactly where it fits.
    fn take_row_line(&mut self, words: ParsedOpenLine<'_>) -> bool
        requires { self.old.ended ≡ false }
        ensures line { (line : OpenLine) → Means words.entry line → HasSpelling line
            → IsRowLine line → TakesLine self.old self.new line result }
        ensures solid { self.new.solid ≡ self.old.solid }
        ensures number { result ≡ false → self.new.number ≡ self.old.number }
    {
        if !self.shell.take(words) {
            return false;
        }
        self.number += 1;
        true
    }

    /// Takes a line, exactly where it fits.
    fn take(&mut self, words: ParsedOpenLine<'_>) -> bool
        ensures line { (line : OpenLine) → Means words.entry line → HasSpelling line
            → TakesLine self.old self.new line result }
        ensures solid { self.new.solid ≡ self.old.solid }
        ensures number { result ≡ false → self.new.number ≡ self.old.number }
    {
        if self.ended {
            return false;
        }
        match words {
            ParsedOpenLine::Head => false,
            ParsedOpenLine::Shell(counts) => self.take_shell(&counts),
            ParsedOpenLine::End => self.take_end(),
            ParsedOpenLine::Edge(..)
            | ParsedOpenLine::Lone(_)
            | ParsedOpenLine::Cycle(_)
            | ParsedOpenLine::Path(_)
            | ParsedOpenLine::Point(..)
            | ParsedOpenLine::Reach(_)
            | ParsedOpenLine::Border(_) => self.take_row_line(words),
        }
    }

    /// Judges the next line, given with its LF: it is spelled and fits after the lines before it, or it is the first
    /// that is misspelt or unfit. Once a line was Illegal, or `finish` found one missing, each call answers the same.
    pub fn line(&mut self, line: &[u8]) -> Result<(), Illegal>
        ensures line { (lines : List OpenLine) → IsAt self.old lines → MatchResult result
            (λ _. (l : OpenLine) × IsSpelled line.now l × FitsLine self.old.solid (progress_from_latest self.old.solid lines) l × IsAt self.new (l ∷ lines))
            (λ bad. IsBadLine self.old.solid lines line.now bad × (self.new.failed ≡ Some bad)) }
        ensures stays { IfSome self.old.failed (λ bad. (result ≡ Err bad) × (self.new ≡ self.old)) }
        ensures solid { self.new.solid ≡ self.old.solid }
    {
        if let Some(illegal) = self.failed {
            return Err(illegal);
        }
        match read_line(line) {
            None => self.fail(Illegal::Misspelt { line: self.number }),
            Some(words) => {
                if self.take(words) {
                    Ok(())
                } else {
                    self.fail(Illegal::Unfit { line: self.number })
                }
            }
        }
    }

    /// Whether END was the last line. Where it wasn't, the line after the last one is missing.
    pub fn finish(&mut self) -> Result<(), Illegal>
        ensures ended { (lines : List OpenLine) → IsAt self.old lines → MatchResult result
            (λ _. ((progress_from_latest self.old.solid lines).ended ≡ true) × (self.new ≡ self.old))
            (λ bad. ((progress_from_latest self.old.solid lines).ended ≡ false) × (bad ≡ IsMissing (progress_from_latest self.old.solid lines).number) × (self.new.failed ≡ Some bad)) }
        ensures stays { IfSome self.old.failed (λ bad. (result ≡ Err bad) × (self.new ≡ self.old)) }
        ensures solid { self.new.solid ≡ self.old.solid }
    {
        if let Some(illegal) = self.failed {
            return Err(illegal);
        }
        if self.ended {
            Ok(())
        } else {
            self.fail(Illegal::Missing { line: self.number })
        }
    }
}
