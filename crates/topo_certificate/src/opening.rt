//! The first two lines of a certificate that comes in pieces.

ghost use Rattle.std.specs.Prelude.{◌≡◌, ◌≤◌, ◌<◌, ◌++◌, ◌==◌, if◌then◌else◌, [], List, ℕ, Ok, Err, take, length, IfOk, IsTrue, MatchOption, MatchResult};
ghost use Rattle.iges_base.specs.Ended.{ended};
ghost use Rattle.iges_base.specs.InLine.{is_in_line};
ghost use Rattle.cert_lines.specs.Line.{first_limit};
ghost use Rattle.cert_lines.specs.Opening.{Opens, IsBadOpening};
ghost use Rattle.cert_lines.specs.declared.version.Version.{Version as Edition};
ghost use Rattle.cert_text.specs.declared.fault.Illegal.TheVariants.{Missing, Misspelt};
ghost use Rattle.topo_certificate.specs.OpeningFed.{HasCome, IsOpening, IsStep, IsWaiting, StageAfter, Stays, StaysAtEnd};

use crate::line_start::LineStart;
use cert_lines::{Illegal, Version, at_line, first_ended, head_line, solid_line};
use iges_base::EntryNo;
use std::marker::Model;

/// How far a certificate's opening has come.
#[derive(Clone, Copy)]
pub enum Stage {
    /// Line 1 is due.
    First,
    /// Line 2 is due; line 1 named this version.
    Second(Version),
    /// Both have come, and name this version and this solid.
    Done(Version, EntryNo),
    /// One of them is bad.
    Failed(Illegal),
}

/// What an opening says of a piece.
#[derive(Clone, Copy)]
pub enum OpeningStep {
    /// The whole piece was taken, and line 2 hasn't ended.
    More,
    /// Line 2 ended: the version, the solid that it names, and how many bytes of the piece were taken, those up to its LF.
    Solid {
        version: Version,
        no: EntryNo,
        used: usize,
    },
}

/// Judges the first two lines of a certificate, whose text comes in pieces that are cut anywhere. It takes no
/// memory.
#[derive(Drop)]
pub struct Opening {
    start: LineStart,
    stage: Stage,
}

impl Model for Opening {
    ghost use Rattle.std.specs.Prelude.{◌≤◌, length};
    ghost use Rattle.topo_certificate.specs.OpeningFed.{Opened};

    ghost Value = { Opened };

    ghost view = { λ o. record { kept = o.start; stage = o.stage } };

    ghost invariant = { λ o. length o.start ≤ 64 };
}

// How far the opening has come after a line.
fn stage_after(stage: Stage, line: &[u8]) -> Stage
    requires { IsWaiting stage }
    ensures { StageAfter stage line.now result }
{
    match stage {
        Stage::First => match head_line(line) {
            Ok(version) => Stage::Second(version),
            Err(misfit) => Stage::Failed(at_line(misfit, 1)),
        },
        Stage::Second(version) => match solid_line(line) {
            Ok(no) => Stage::Done(version, no),
            Err(misfit) => Stage::Failed(at_line(misfit, 2)),
        },
        _ => stage,
    }
}

impl Opening {
    /// Before line 1.
    pub fn new() -> Opening
        ensures stands { IsOpening result [] }
        ensures waiting { IsWaiting result.stage }
    {
        Opening {
            start: LineStart::new(),
            stage: Stage::First,
        }
    }

    // Judges the line that began with what is kept and ends with these bytes, the last of which is LF.
    fn end_line(&mut self, line: &[u8])
        requires waiting { IsWaiting self.old.stage }
        requires some { 0 < length line.now }
        ensures { (text front : List ℕ) → IsTrue (is_in_line front) → line.now ≡ ended front
            → IsOpening self.old text → IsOpening self.new (text ++ line.now) }
    {
        if self.start.len() == 0 {
            self.stage = stage_after(self.stage, line);
            return;
        }
        self.start.keep(&line[..line.len() - 1]);
        self.start.push(b'\n');
        self.stage = stage_after(self.stage, self.start.as_slice());
        self.start.clear();
    }

    // Takes the bytes up to the first LF, and judges the line that it ends: how many they are. Without LF all are kept.
    fn take_line(&mut self, piece: &[u8]) -> Option<usize>
        requires { IsWaiting self.old.stage }
        ensures line { (text : List ℕ) → IsOpening self.old text
            → MatchOption result (IsOpening self.new (text ++ piece.now))
            (λ used. IsOpening self.new (text ++ take used piece.now)) }
        ensures used { MatchOption result (self.new.stage ≡ self.old.stage)
            (λ used. (0 < used) × (used ≤ length piece.now)) }
    {
        match first_ended(piece) {
            Some((line, _)) => {
                self.end_line(line);
                Some(line.len())
            }
            None => {
                self.start.keep(piece);
                None
            }
        }
    }

    /// Takes the next bytes up to the end of line 2, and judges each of the two lines at its LF. Once both have come
    /// each call takes none and answers the same solid; once one was bad each call answers the same.
    pub fn feed(&mut self, piece: &[u8]) -> Result<OpeningStep, Illegal>
        ensures step { (text : List ℕ) → IsOpening self.old text
            → MatchResult result (IsStep self.new text piece.now)
            (λ bad. (self.new.stage ≡ Stage.Failed bad) × IsOpening self.new (text ++ piece.now)) }
        ensures stays { Stays self.old self.new result }
    {
        match self.stage {
            Stage::Failed(bad) => Err(bad),
            Stage::Done(version, no) => Ok(OpeningStep::Solid {
                version,
                no,
                used: 0,
            }),
            Stage::First | Stage::Second(_) => self.feed_lines(piece),
        }
    }

    // Takes the lines that end in the piece, until line 2 has ended or one of the two is bad.
    fn feed_lines(&mut self, piece: &[u8]) -> Result<OpeningStep, Illegal>
        requires { IsWaiting self.old.stage }
        ensures step { (text : List ℕ) → IsOpening self.old text
            → MatchResult result (IsStep self.new text piece.now)
            (λ bad. (self.new.stage ≡ Stage.Failed bad) × IsOpening self.new (text ++ piece.now)) }
    {
        let mut used = 0;
        'lines: while let Some(len) = self.take_line(&piece[used..]) {
            used += len;
            match self.stage {
                Stage::Failed(bad) => return Err(bad),
                Stage::Done(version, no) => return Ok(OpeningStep::Solid { version, no, used }),
                Stage::First | Stage::Second(_) => {}
            }
        }
        Ok(OpeningStep::More)
    }

    // The line of this number isn't there, or its LF isn't.
    fn end(&mut self, line: u64) -> Result<(), Illegal>
        ensures said { result ≡ Err (if length self.old.kept == 0 then Missing line
            else Misspelt line) }
        ensures failed { MatchResult result (λ _. ⊥) (λ bad. self.new.stage ≡ Stage.Failed bad) }
    {
        let bad = if self.start.len() == 0 {
            Illegal::Missing { line }
        } else {
            Illegal::Misspelt { line }
        };
        self.stage = Stage::Failed(bad);
        Err(bad)
    }

    /// Whether both lines have come. A line without LF is misspelt, and a line that isn't there is missing.
    pub fn finish(&mut self) -> Result<(), Illegal>
        ensures said { (text : List ℕ) → IsOpening self.old text
            → MatchResult result (λ _. (v : Edition) × (n : ℕ) × Opens text v n [])
            (λ bad. IsBadOpening text bad) }
        ensures come { IfOk result (λ _. HasCome self.old.stage) }
        ensures failed { MatchResult result (λ _. self.new ≡ self.old)
            (λ bad. self.new.stage ≡ Stage.Failed bad) }
        ensures stays { StaysAtEnd self.old self.new result }
    {
        match self.stage {
            Stage::Done(..) => Ok(()),
            Stage::Failed(bad) => Err(bad),
            Stage::First => self.end(1),
            Stage::Second(_) => self.end(2),
        }
    }
}
