//! Pieces of a file, cut anywhere, made into lines.

ghost use Rattle.iges_base.specs.declared.TheConstants.{FILE_LIMIT};
ghost use Rattle.iges_base.specs.InLine.{is_in_line};
ghost use Rattle.iges_lines.specs.declared.fault.LineFault.{LineFault};
ghost use Rattle.iges_lines.specs.Extending.{Extends};
ghost use Rattle.iges_lines.specs.Feeding.{IsFed, StandsFor};
ghost use Rattle.iges_lines.specs.Gives.{Gives, IfBad};
ghost use Rattle.iges_lines.specs.LineFaults.{IsLineFault};
ghost use Rattle.iges_lines.specs.Lines.{SectionLines};
ghost use Rattle.iges_lines.specs.Reading.{read_sections};
ghost use Rattle.iges_lines.specs.Sectioned.{IsSectioned};
ghost use Rattle.std.specs.Prelude.{◌≡◌, ◌+◌, ◌≤◌, ◌<◌, ◌^◌, List, [], ◌∷◌, ◌++◌, None, Ok, Err, ℕ, length, IfOk, OnOk, OnErr, IsSome, IsTrue};

use crate::fault::SectionsFault;
use crate::pieces::{first_ended, stripped};
use crate::section_table::SectionTable;
use crate::table::Sections;
use crate::taken_lines::TakenLines;
use iges_base::NoMemory;
use std::alloc::Global;
use std::marker::Model;

/// The lines of a file that comes piece by piece (IGES 5.3, 2.2.4). A line is judged as soon as its LF has come, and
/// after the first that fails no more are kept.
#[derive(Drop)]
pub struct LineFeed {
    alloc: Global,
    taken: TakenLines,
    rest: Vec<u8>,
    len: u64,
}

impl Model for LineFeed {
    ghost use Rattle.iges_base.specs.declared.TheConstants.{FILE_LIMIT};
    ghost use Rattle.iges_lines.specs.Feeding.{Fed, IsFed};
    ghost use Rattle.std.specs.Prelude.{◌≤◌, List, ℕ};

    ghost Value = { Fed };

    ghost view = { λ f. record { taken = f.taken; rest = f.rest.items; len = f.len } };

    ghost invariant = { λ f. ((bytes : List ℕ) × IsFed (record { taken = f.taken; rest = f.rest.items; len = f.len }) bytes) × (f.len ≤ FILE_LIMIT) };
}

// The bytes in memory of their own.
fn copy_of(alloc: Global, bytes: &[u8]) -> Result<Vec<u8>, NoMemory>
    ensures { IfOk result (λ copy. copy.items ≡ bytes.now) }
{
    let mut copy = Vec::new(alloc);
    copy.extend_from_slice(bytes)?;
    Ok(copy)
}

// Takes the line that began with `rest` and ends with `head`.
fn take_joined(
    alloc: Global,
    taken: &mut TakenLines,
    rest: &[u8],
    head: &[u8],
) -> Result<(), NoMemory>
    requires few { taken.old.number < 2 ^ 63 }
    requires open { taken.old.fault ≡ None }
    requires head { IsTrue (is_in_line head.now) }
    ensures ok { OnOk result ((bytes : List ℕ) → StandsFor taken.old rest.now bytes
        → StandsFor taken.new [] (bytes ++ (head.now ++ 10 ∷ []))) }
    ensures extends { Extends taken.old.sections taken.new.sections }
    ensures number { taken.new.number ≤ taken.old.number + 1 }
{
    if rest.is_empty() {
        return taken.take(stripped(head));
    }
    let mut line = copy_of(alloc, rest)?;
    line.extend_from_slice(head)?;
    taken.take(stripped(line.as_slice()))
}

// Takes the lines that have ended, and gives the rest after them.
fn take_piece(
    alloc: Global,
    taken: &mut TakenLines,
    rest: &[u8],
    head: &[u8],
    tail: &[u8],
) -> Result<Vec<u8>, NoMemory>
    requires few { taken.old.number + length tail.now + 1 < 2 ^ 63 }
    requires open { taken.old.fault ≡ None }
    requires head { IsTrue (is_in_line head.now) }
    ensures ok { IfOk result (λ left. (bytes : List ℕ) → StandsFor taken.old rest.now bytes
        → StandsFor taken.new left.items (bytes ++ (head.now ++ 10 ∷ tail.now))) }
    ensures extends { Extends taken.old.sections taken.new.sections }
{
    take_joined(alloc, taken, rest, head)?;
    match taken.take_ended(tail) {
        Ok(left) => copy_of(alloc, left),
        Err(error) => Err(error),
    }
}

impl LineFeed {
    /// A feed of no bytes.
    pub fn new(alloc: Global) -> LineFeed
        ensures fed { IsFed result [] }
        ensures len { result.len ≡ 0 }
    {
        LineFeed {
            alloc,
            taken: TakenLines::new(alloc),
            rest: Vec::new(alloc),
            len: 0,
        }
    }

    /// Takes the next bytes, cut anywhere. Where memory runs out, the feed is as it was.
    pub fn feed(&mut self, piece: &[u8]) -> Result<(), NoMemory>
        requires { self.old.len + length piece.now ≤ FILE_LIMIT }
        ensures ok { OnOk result ((bytes : List ℕ) → IsFed self.old bytes
            → IsFed self.new (bytes ++ piece.now)) }
        ensures len { OnOk result (self.new.len ≡ self.old.len + length piece.now) }
        ensures err { OnErr result (self.new ≡ self.old) }
        ensures failed { IsSome self.old.taken.fault
            → (self.new.taken ≡ self.old.taken) × (self.new.rest ≡ self.old.rest) }
    {
        if self.taken.has_failed() {
            self.len += piece.len() as u64;
            return Ok(());
        }
        let Some((head, tail)) = first_ended(piece) else {
            self.rest.extend_from_slice(piece)?;
            self.len += piece.len() as u64;
            return Ok(());
        };
        let mark = self.taken.mark();
        match take_piece(
            self.alloc,
            &mut self.taken,
            self.rest.as_slice(),
            head,
            tail,
        ) {
            Ok(rest) => {
                self.rest = rest;
                self.len += piece.len() as u64;
                Ok(())
            }
            Err(error) => {
                self.taken.go_back(mark);
                Err(error)
            }
        }
    }

    // The lines by section, without a test of what is known of them then.
    fn end(self) -> Result<SectionTable, SectionsFault>
        ensures { (bytes : List ℕ) → IsFed self bytes → Gives result (read_sections bytes) }
    {
        let LineFeed {
            mut taken,
            rest,
            ..
        } = self;
        let last = rest.as_slice();
        if taken.has_failed() || last.is_empty() {
            return taken.finish();
        }
        taken.take(stripped(last))?;
        taken.finish()
    }

    /// The lines by section, as `sections` gives them of all bytes that came, or the first line at which they fail, and
    /// why.
    pub fn finish(self) -> Result<Sections, SectionsFault>
        ensures found { (bytes : List ℕ) → IsFed self bytes → IfOk result (IsSectioned bytes) }
        ensures only { (bytes : List ℕ) → IsFed self bytes → (s : SectionLines)
            → IsSectioned bytes s → Gives result (Ok s) }
        ensures fault { (bytes : List ℕ) → IsFed self bytes → IfBad result (IsLineFault bytes) }
        ensures only_fault { (bytes : List ℕ) → IsFed self bytes → (fault : LineFault)
            → IsLineFault bytes fault → Gives {Y = SectionLines} result (Err fault) }
    {
        let _len = self.len;
        let table = self.end()?;
        Ok(Sections::of(table))
    }
}
