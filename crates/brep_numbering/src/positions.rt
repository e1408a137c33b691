//! Where numbers are in a list.

ghost use Rattle.std.specs.Prelude.{◌≡◌, ◌≢◌, [], ℕ, slice_index, IfOk, OnOk, OnErr};

use iges_base::NoMemory;
use std::alloc::Global;
use std::marker::Model;

/// For each number a position in a list, found by one load. Whoever looks one up tests that the number is there, so
/// that what is said of a number that the list hasn't got is free, and nothing has to be undone when the list is cleared.
#[derive(Drop)]
pub struct Positions {
    by_number: Vec<u32>,
}

impl Model for Positions {
    ghost use Rattle.std.specs.Prelude.{List, ℕ};

    ghost Value = { List ℕ };

    ghost view = { λ positions. positions.by_number.items };
}

/// The position at the end of a list of so many items.
pub fn end_position(length: usize) -> Result<u32, NoMemory>
    ensures { IfOk result (λ position. position ≡ length) }
{
    match u32::try_from(length) {
        Ok(position) => Ok(position),
        Err(_) => Err(NoMemory),
    }
}

impl Positions {
    /// Position 0 for every number.
    pub fn new(alloc: Global) -> Positions
        ensures { result ≡ [] }
    {
        Positions {
            by_number: Vec::new(alloc),
        }
    }

    /// The position of a number, which is 0 where none was set.
    pub fn get(&self, number: u32) -> u32
        ensures { result ≡ slice_index self.now number }
    {
        match self.by_number.get(number as usize) {
            Some(position) => *position,
            None => 0,
        }
    }

    /// Sets the position of a number.
    pub fn set(&mut self, number: u32, position: u32) -> Result<(), NoMemory>
        ensures set { OnOk result (slice_index self.new number ≡ position) }
        ensures others { (n : ℕ) → n ≢ number → slice_index self.new n ≡ slice_index self.old n }
        ensures err { OnErr result ((n : ℕ) → slice_index self.new n ≡ slice_index self.old n) }
    {
        let at = number as usize;
        if self.by_number.len() <= at {
            self.by_number.resize(at + 1, 0)?;
        }
        self.by_number[at] = position;
        Ok(())
    }
}
