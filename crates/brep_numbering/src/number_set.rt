//! Numbers of entries, of which each is found by one load.

ghost use Rattle.std.specs.Prelude.{◌≡◌, ◌↔◌, ◌∷◌, ◌++◌, [], pos, not, IsTrue, IfOk, Contains, if◌then◌else◌};

use crate::positions::{Positions, end_position};
use iges_base::{EntryNo, NoMemory};
use std::alloc::Global;
use std::marker::Model;

/// Numbers of entries, each once, in the order in which they came.
#[derive(Drop)]
pub struct NumberSet {
    numbers: Vec<u32>,
    positions: Positions,
}

impl Model for NumberSet {
    ghost use Rattle.std.specs.Prelude.{List, ℤ, pos, map};
    ghost use Rattle.brep_numbering.specs.Placed.{ArePlaced};

    ghost Value = { List ℤ };

    ghost view = { λ set. map pos set.numbers.items };

    ghost invariant = { λ set. ArePlaced set.positions set.numbers.items };
}

impl NumberSet {
    /// A set of no numbers.
    pub fn new(alloc: Global) -> NumberSet
        ensures { result ≡ [] }
    {
        NumberSet {
            numbers: Vec::new(alloc),
            positions: Positions::new(alloc),
        }
    }

    /// Whether an entry's number is in the set.
    pub fn has(&self, no: EntryNo) -> bool
        ensures { IsTrue result ↔ Contains self.now (pos no.0) }
    {
        match self.numbers.get(self.positions.get(no.0) as usize) {
            Some(number) => *number == no.0,
            None => false,
        }
    }

    /// Puts an entry's number into the set. The answer is whether it wasn't there before.
    pub fn insert(&mut self, no: EntryNo) -> Result<bool, NoMemory>
        ensures new { IfOk result (λ is_new. IsTrue (not is_new) ↔ Contains self.old (pos no.0)) }
        ensures numbers { IfOk result (λ is_new. self.new ≡ (if is_new then self.old ++ pos no.0 ∷ [] else self.old)) }
    {
        if self.has(no) {
            return Ok(false);
        }
        let position = end_position(self.numbers.len())?;
        self.positions.set(no.0, position)?;
        self.numbers.push(no.0)?;
        Ok(true)
    }

    /// Empties the set. No memory is given back.
    pub fn clear(&mut self)
        ensures { self.new ≡ [] }
    {
        self.numbers.clear();
    }
}
