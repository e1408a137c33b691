//! What is known of entries, by their numbers.

ghost use Rattle.std.specs.Prelude.{◌≡◌, ◌≢◌, [], ℕ, OnOk, OnErr};
ghost use Rattle.brep_numbering.specs.Marked.{mark_of};

use iges_base::{EntryNo, NoMemory};
use std::alloc::Global;
use std::marker::Model;

/// What is known of an entry's record.
#[derive(Clone, Copy)]
pub enum Mark {
    /// Nothing.
    Unknown,
    /// It fits its type.
    Fits,
    /// It fits, is that of a loop, and all that its tuples name is there.
    Walked,
    /// It doesn't fit its type.
    Misfits,
}

/// A mark for each entry.
#[derive(Drop)]
pub struct Marks {
    by_number: Vec<Mark>,
}

impl Model for Marks {
    ghost use Rattle.std.specs.Prelude.{List};
    ghost use Rattle.brep_numbering.specs.declared.marks.Mark.{Mark as OneMark};

    ghost Value = { List OneMark };

    ghost view = { λ marks. marks.by_number.items };
}

impl Marks {
    /// Nothing is known of any entry.
    pub fn new(alloc: Global) -> Marks
        ensures { result ≡ [] }
    {
        Marks {
            by_number: Vec::new(alloc),
        }
    }

    /// The mark of an entry.
    pub fn get(&self, no: EntryNo) -> Mark
        ensures { result ≡ mark_of self.now no.0 }
    {
        match self.by_number.get(no.0 as usize) {
            Some(mark) => *mark,
            None => Mark::Unknown,
        }
    }

    /// Sets the mark of an entry.
    pub fn set(&mut self, no: EntryNo, mark: Mark) -> Result<(), NoMemory>
        ensures set { OnOk result (mark_of self.new no.0 ≡ mark) }
        ensures others { (n : ℕ) → n ≢ no.0 → mark_of self.new n ≡ mark_of self.old n }
        ensures err { OnErr result ((n : ℕ) → mark_of self.new n ≡ mark_of self.old n) }
    {
        let at = no.0 as usize;
        if self.by_number.len() <= at {
            self.by_number.resize(at + 1, Mark::Unknown)?;
        }
        self.by_number[at] = mark;
        Ok(())
    }
}
