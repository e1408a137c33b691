//! Lists that were looked at.

ghost use Rattle.std.specs.Prelude.{◌≡◌, ◌∷◌, ◌++◌, [], ℕ, pos, slice_get, Some, IfSome, OnOk, OnErr};

use crate::positions::{Positions, end_position};
use iges_base::{EntryNo, NoMemory};
use std::alloc::Global;
use std::marker::Model;

/// Lists that were looked at, by the entries that they are in. Where an entry is kept twice, the later one is found.
#[derive(Drop)]
pub struct ListTable<T> {
    lists: Vec<(EntryNo, T)>,
    positions: Positions,
}

impl<T> Model for ListTable<T> {
    ghost use Rattle.std.specs.Prelude.{List};
    ghost use Rattle.iges_base.specs.declared.entry_no.EntryNo.{EntryNo};

    ghost Value = { List (EntryNo × T) };

    ghost view = { λ table. table.lists.items };
}

// The number as an entry's.
fn entry_number(number: i64) -> Option<u32>
    ensures { IfSome result (λ no. number ≡ pos no) }
{
    match u32::try_from(number) {
        Ok(no) => Some(no),
        Err(_) => None,
    }
}

impl<T: Drop> ListTable<T> {
    /// A table of no lists.
    pub fn new(alloc: Global) -> ListTable<T>
        ensures { result ≡ [] }
    {
        ListTable {
            lists: Vec::new(alloc),
            positions: Positions::new(alloc),
        }
    }

    /// The list that a number names, where it is kept.
    pub fn get(&self, number: i64) -> Option<&(EntryNo, T)>
        ensures { IfSome result (λ kept. (number ≡ pos kept.now.0.0)
            × ((i : ℕ) × (slice_get self.now i ≡ Some kept.now))) }
    {
        let Some(no) = entry_number(number) else {
            return None;
        };
        match self.lists.get(self.positions.get(no) as usize) {
            Some(kept) if kept.0.0 == no => Some(kept),
            _ => None,
        }
    }

    /// Keeps a list.
    pub fn keep(&mut self, no: EntryNo, list: T) -> Result<(), NoMemory>
        ensures kept { OnOk result (self.new ≡ self.old ++ (no, list) ∷ []) }
        ensures err { OnErr result (self.new ≡ self.old) }
    {
        let position = end_position(self.lists.len())?;
        self.positions.set(no.0, position)?;
        self.lists.push((no, list))?;
        Ok(())
    }
}
