//! Lines judged and taken one by one, up to the first that fails.

ghost use Rattle.iges_lines.specs.Extending.{Extends, mark_of};
ghost use Rattle.iges_lines.specs.Feeding.{Taken, AreTaken, StandsFor};
ghost use Rattle.iges_lines.specs.Gives.{Gives};
ghost use Rattle.iges_base.specs.First.{first_failing};
ghost use Rattle.iges_lines.specs.Foretold.{IsNextEnding};
ghost use Rattle.iges_lines.specs.Kinds.{is_last};
ghost use Rattle.iges_lines.specs.LineFaults.{line_tests};
ghost use Rattle.iges_lines.specs.Lines.{columns, lines};
ghost use Rattle.iges_lines.specs.Reading.{read_sections};
ghost use Rattle.std.specs.Prelude.{◌≡◌, ◌+◌, ◌≤◌, ◌<◌, ◌^◌, List, [], ◌∷◌, ◌++◌, None, false, ℕ, length, IfOk, IfSome, IsFalse, IsTrue, OnOk, OnErr, is_some};

use crate::due::{ending_of, is_due, next_ending};
use crate::fault::{LineFault, SectionsFault};
use crate::judging::fault_of;
use crate::kind::{Kind, is_last_kind, kind_of};
use crate::line::letter_of;
use crate::pieces::{first_ended, stripped};
use crate::reason::Reason;
use crate::section_table::{LineCounts, SectionTable};
use iges_base::NoMemory;
use std::alloc::Global;
use std::marker::Model;

/// The lines that have come so far, by section, up to the first that fails.
#[derive(Drop)]
pub struct TakenLines {
    table: SectionTable,
    terminated: bool,
    number: u64,
    fault: Option<LineFault>,
    due: Option<[u8; 8]>,
}

impl Model for TakenLines {
    ghost use Rattle.iges_lines.specs.Feeding.{Taken};
    ghost use Rattle.iges_lines.specs.Foretold.{IsForetold};

    ghost Value = { Taken };

    ghost view = { λ t. record { sections = t.table; terminated = t.terminated; number = t.number; fault = t.fault } };

    ghost invariant = { λ t. IsForetold (record { sections = t.table; terminated = t.terminated; number = t.number; fault = t.fault }) t.due };
}

/// How far the lines had come.
#[derive(Clone, Copy)]
pub struct Mark {
    counts: LineCounts,
    terminated: bool,
    number: u64,
    fault: Option<LineFault>,
}

// The ending of the line after this one, where it is known.
#[inline(always)]
fn due_after(kind: Kind, line: &[u8]) -> Option<[u8; 8]>
    requires { length line.now ≡ 80 }
    ensures { IfSome result (λ ending. IsFalse (is_last kind)
        × IsNextEnding (columns 73 80 line.now) ending) }
{
    if is_last_kind(kind) {
        return None;
    }
    next_ending(ending_of(line))
}

impl TakenLines {
    /// No lines.
    pub fn new(alloc: Global) -> TakenLines
        ensures taken { AreTaken [] result }
        ensures fault { result.fault ≡ None }
        ensures number { result.number ≡ 1 }
    {
        TakenLines {
            table: SectionTable::new(alloc),
            terminated: false,
            number: 1,
            fault: None,
            due: None,
        }
    }

    /// Whether a line has failed.
    pub fn has_failed(&self) -> bool
        ensures { result ≡ is_some self.now.fault }
    {
        self.fault.is_some()
    }

    /// How far the lines have come.
    pub fn mark(&self) -> Mark
        ensures { result ≡ mark_of self.now }
    {
        Mark {
            counts: self.table.counts(),
            terminated: self.terminated,
            number: self.number,
            fault: self.fault,
        }
    }

    /// Takes off the lines after the mark.
    pub fn go_back(&mut self, mark: Mark)
        ensures { (t : Taken) → mark ≡ mark_of t → Extends t.sections self.old.sections
            → self.new ≡ t }
    {
        self.table.truncate(mark.counts);
        self.terminated = mark.terminated;
        self.number = mark.number;
        self.fault = mark.fault;
        self.due = None;
    }

    // Takes a line that passes, where no terminate line has come.
    #[inline(always)]
    fn put(&mut self, line: &[u8]) -> Result<(), NoMemory>
        requires few { self.old.number < 2 ^ 63 }
        requires long { length line.now ≡ 80 }
        requires going { (self.old.terminated ≡ false) × (self.old.fault ≡ None) }
        requires passes { None ≡ first_failing (line_tests self.old.sections line.now) }
        ensures ok { OnOk result ((ls : List (List ℕ)) → AreTaken ls self.old
            → AreTaken (ls ++ line.now ∷ []) self.new) }
        ensures err { OnErr result (self.new ≡ self.old) }
        ensures extends { Extends self.old.sections self.new.sections }
        ensures number { self.new.number ≤ self.old.number + 1 }
    {
        let kind = kind_of(letter_of(line));
        self.table.add(kind, line)?;
        self.terminated = is_last_kind(kind);
        self.number += 1;
        self.due = due_after(kind, line);
        Ok(())
    }

    // Judges the next line, and takes it where no line has failed.
    #[inline(never)]
    fn take_judged(&mut self, line: &[u8]) -> Result<(), NoMemory>
        requires { self.old.number < 2 ^ 63 }
        ensures ok { OnOk result ((ls : List (List ℕ)) → AreTaken ls self.old
            → AreTaken (ls ++ line.now ∷ []) self.new) }
        ensures err { OnErr result (self.new ≡ self.old) }
        ensures extends { Extends self.old.sections self.new.sections }
        ensures number { self.new.number ≤ self.old.number + 1 }
    {
        if self.fault.is_some() {
            return Ok(());
        }
        if let Some(reason) = fault_of(&self.table, self.terminated, line) {
            self.fault = Some(LineFault {
                line: self.number,
                reason,
            });
            self.due = None;
            return Ok(());
        }
        if self.terminated {
            self.number += 1;
            return Ok(());
        }
        self.put(line)
    }

    /// Judges the next line, and takes it where no line has failed.
    #[inline(always)]
    pub fn take(&mut self, line: &[u8]) -> Result<(), NoMemory>
        requires { self.old.number < 2 ^ 63 }
        ensures ok { OnOk result ((ls : List (List ℕ)) → AreTaken ls self.old
            → AreTaken (ls ++ line.now ∷ []) self.new) }
        ensures err { OnErr result (self.new ≡ self.old) }
        ensures extends { Extends self.old.sections self.new.sections }
        ensures number { self.new.number ≤ self.old.number + 1 }
    {
        // Most lines end with the number that is due.
        if is_due(line, self.due) {
            return self.put(line);
        }
        self.take_judged(line)
    }

    /// Takes the lines that have ended, and gives what is after them. After a line that fails none is taken, and nothing is
    /// left.
    pub fn take_ended<'b>(&mut self, bytes: &'b [u8]) -> Result<&'b [u8], NoMemory>
        requires { self.old.number + length bytes.now < 2 ^ 63 }
        ensures ok { IfOk result (λ left. (before : List ℕ) → StandsFor self.old [] before
            → StandsFor self.new left.now (before ++ bytes.now)) }
        ensures extends { Extends self.old.sections self.new.sections }
    {
        let mut left = bytes;
        'lines: while self.fault.is_none() {
            let Some((piece, after)) = first_ended(left) else {
                return Ok(left);
            };
            self.take(stripped(piece))?;
            left = after;
        }
        Ok(&left[..0])
    }

    /// The lines by section, without a test of what is known of them then.
    pub fn finish(self) -> Result<SectionTable, SectionsFault>
        ensures { (bytes : List ℕ) → AreTaken (lines bytes) self
            → Gives result (read_sections bytes) }
    {
        if let Some(fault) = self.fault {
            return Err(SectionsFault::Bad(fault));
        }
        if !self.terminated {
            return Err(SectionsFault::Bad(LineFault {
                line: self.number,
                reason: Reason::Missing,
            }));
        }
        Ok(self.table)
    }
}
