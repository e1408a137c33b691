//! Marks of the items of a file's lists.

ghost use Rattle.entry_references.specs.EntrySets.{marks_set};
ghost use Rattle.list_compact.specs.Marking.{AreAllMarked, AreMarks, is_at, sizes};
ghost use Rattle.std.specs.Prelude.{◌≡◌, ◌∷◌, ◌++◌, ◌||◌, ◌<◌, ◌≤◌, ℕ, Bool, [], Some, false, true, IsTrue, OnOk, length, replicate, slice_get, slice_index_or};

use crate::entry_rows::EntryRows;
use crate::place::place_of;
use iges_base::NoMemory;
use std::alloc::Global;
use std::marker::Model;

/// For each entry a mark for each item of the list that it is, and no marks where it is none.
#[derive(Drop)]
pub struct Marks {
    rows: EntryRows<bool>,
}

impl Model for Marks {
    ghost use Rattle.std.specs.Prelude.{Bool, List};

    ghost Value = { List (List Bool) };

    ghost view = { λ marks. marks.rows };
}

/// How many of these are marked.
pub fn count_marks(row: &[bool]) -> usize
    ensures is { result ≡ marks_set row.now }
    ensures few { result ≤ length row.now }
{
    let mut count = 0;
    'marks: for mark in row {
        if *mark {
            count += 1;
        }
    }
    count
}

// Whether all these are marked.
fn are_marked(row: &[bool]) -> bool
    ensures { IsTrue result → (i : ℕ) → i < length row.now → slice_index_or row.now i false ≡ true }
{
    count_marks(row) == row.len()
}

impl Marks {
    pub fn new(alloc: Global) -> Marks
        ensures { result ≡ [] }
    {
        Marks {
            rows: EntryRows::new(alloc),
        }
    }

    /// Puts a row of so many items, none of which is marked.
    pub fn push(&mut self, items: usize) -> Result<(), NoMemory>
        ensures { OnOk result (self.new ≡ self.old ++ replicate items false ∷ []) }
    {
        self.rows.push(items, false)
    }

    /// Marks the item that the number of a list and an index name, where there is one.
    pub fn mark(&mut self, list: i64, index: i64)
        ensures marked { (used : ℕ → ℕ → Bool) → AreMarks self.old used
            → AreMarks self.new (λ e j. used e j || is_at list index e j) }
        ensures sizes { sizes self.new ≡ sizes self.old }
    {
        let Some(place) = place_of(list, index) else {
            return;
        };
        self.rows.set(place.entry, place.item, true);
    }

    /// How many rows there are.
    pub fn len(&self) -> usize
        ensures { result ≡ length self.now }
    {
        self.rows.len()
    }

    /// Whether each item is marked.
    pub fn are_all(&self) -> bool
        ensures { IsTrue result → AreAllMarked self.now }
    {
        let count = self.len();
        'rows: for i in 0..count {
            let is_whole = are_marked(self.row(i));
            if !is_whole {
                return false;
            }
        }
        true
    }

    /// The marks of the list in a place of the directory.
    pub fn row(&self, i: usize) -> &[bool]
        requires { i < length self.now }
        ensures { slice_get self.now i ≡ Some result.now }
    {
        self.rows.row(i)
    }
}
