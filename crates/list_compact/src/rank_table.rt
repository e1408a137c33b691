//! The ranks of used items.

ghost use Rattle.iges_base.specs.declared.TheConstants.{FILE_LIMIT};
ghost use Rattle.list_compact.specs.Marking.{AreRanks, Covers, IsRankAt, ranks_of};
ghost use Rattle.list_compact.specs.Used.{ranked};
ghost use Rattle.solid_data.specs.Obligations.{entry_number};
ghost use Rattle.std.specs.List.{AllByRecursion};
ghost use Rattle.std.specs.Prelude.{◌≡◌, ◌⊎◌, ◌+◌, ◌*◌, ◌≤◌, ◌++◌, ℕ, ℤ, Bool, List, Some, IfOk, OnOk, pos, length, map, slice_get, slice_index_or};

use crate::entry_rows::EntryRows;
use crate::marks::Marks;
use crate::place::place_of;
use iges_base::NoMemory;
use std::alloc::Global;
use std::marker::Model;

// Puts the ranks of a list's marked items, and 0 for the others.
fn push_ranks(ranks: &mut Vec<i64>, marks: &[bool]) -> Result<(), NoMemory>
    requires { length marks.now ≤ FILE_LIMIT }
    ensures { OnOk result (ranks.new.items ≡ ranks.old.items ++ ranks_of 0 marks.now) }
{
    let mut count = 0usize;
    'marks: for mark in marks {
        if *mark {
            count += 1;
            ranks.push(count as i64)?;
        } else {
            ranks.push(0)?;
        }
    }
    Ok(())
}

// 0 past the end, as for an item that isn't used.
fn rank_at(ranks: &[i64], item: usize) -> i64
    ensures { result ≡ slice_index_or ranks.now item (pos 0) }
{
    if item < ranks.len() { ranks[item] } else { 0 }
}

/// For each entry the rank of each item of the list that it is, or 0 where the item isn't used.
#[derive(Drop)]
pub struct Ranks {
    rows: EntryRows<i64>,
}

impl Model for Ranks {
    ghost use Rattle.std.specs.Prelude.{List, ℤ};

    ghost Value = { List (List ℤ) };

    ghost view = { λ ranks. ranks.rows };
}

/// The ranks of marked items.
pub fn ranks_by(alloc: Global, marks: &Marks) -> Result<Ranks, NoMemory>
    requires { AllByRecursion (λ row. length row ≤ FILE_LIMIT) marks.now }
    ensures { IfOk result (λ ranks. ranks ≡ map (ranks_of 0) marks.now) }
{
    let mut ranks = Vec::new(alloc);
    let mut ends = Vec::new(alloc);
    let count = marks.len();
    'rows: for i in 0..count {
        push_ranks(&mut ranks, marks.row(i))?;
        ends.push(ranks.len())?;
    }
    Ok(Ranks {
        rows: EntryRows::of(ranks, ends),
    })
}

impl Ranks {
    // The rank of the item that the number of a list and an index name; 0 where there is none, or it isn't used.
    fn rank(&self, list: i64, index: i64) -> i64
        ensures item { (k i : ℕ) (row : List ℤ) → list ≡ pos (2 * k + 1) → index ≡ pos (i + 1)
            → slice_get self.now k ≡ Some row → result ≡ slice_index_or row i (pos 0) }
        ensures found { (result ≡ pos 0) ⊎ IsRankAt self.now list index result }
    {
        let Some(place) = place_of(list, index) else {
            return 0;
        };
        if place.entry >= self.rows.len() {
            return 0;
        }
        rank_at(self.rows.row(place.entry), place.item)
    }

    /// The index of an item among those that are used, where it is; and else the index.
    pub fn index(&self, list: i64, index: i64) -> i64
        ensures { (used : ℕ → ℕ → Bool) → AreRanks self.now used → Covers self.now used
            → result ≡ ranked (used (entry_number list)) index }
    {
        let rank = self.rank(list, index);
        if rank == 0 { index } else { rank }
    }
}
