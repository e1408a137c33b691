//! The new numbers of the entries that are kept.

ghost use Rattle.entry_references.specs.EntrySets.{IsWithin, numbers_of};
ghost use Rattle.iges_base.specs.declared.TheConstants.{ENTRY_LIMIT, LINE_LIMIT};
ghost use Rattle.iges_directory.specs.Bounds.{IsBounded, fits_columns};
ghost use Rattle.solid_extract.specs.Extracted.{if_number, new_entry, new_number, renamed};
ghost use Rattle.solid_extract.specs.Renaming.{place_of};
ghost use Rattle.std.specs.List.{AllByRecursion};
ghost use Rattle.std.specs.Prelude.{◌≡◌, ◌+◌, ◌*◌, ◌≤◌, ℕ, IfOk, IsTrue, if◌then◌else◌, int_lt, length, neg_ℤ, pos};

use entry_references::EntryList;
use iges_base::{EntryNo, NoMemory};
use iges_directory::Entry;
use std::alloc::Global;
use std::marker::Model;

/// The new numbers of the entries that are kept: 1, 3, 5 and so on.
#[derive(Drop)]
pub struct Renaming {
    kept: EntryList,
    places: Vec<usize>,
}

impl Model for Renaming {
    ghost use Rattle.std.specs.Prelude.{List, ℕ};
    ghost use Rattle.entry_references.specs.EntrySets.{numbers_of};
    ghost use Rattle.solid_extract.specs.Renaming.{ArePlaces};

    ghost Value = { List ℕ };

    ghost view = { λ r. numbers_of r.kept };

    ghost invariant = { λ r. ArePlaces (numbers_of r.kept) r.places.items };
}

// A negative number is a pointer to an entry that isn't kept (IGES 5.3, 2.2.4.4.4 and 2.2.4.4.5).
fn if_number(number: i64) -> i64
    ensures { result ≡ if_number number }
{
    if number < 0 { 0 } else { number }
}

// The directory number of the entry at a place, from 0.
fn number_of_place(place: usize) -> i64
    requires { place ≤ ENTRY_LIMIT }
    ensures { result ≡ pos (2 * place + 1) }
{
    2 * place as i64 + 1
}

impl Renaming {
    /// Of a file of so many entries these are kept, in this order.
    pub fn new(alloc: Global, kept: EntryList, size: usize) -> Result<Renaming, NoMemory>
        requires within { AllByRecursion (IsWithin size) (numbers_of kept) }
        requires few { length kept ≤ ENTRY_LIMIT }
        ensures { IfOk result (λ renaming. renaming ≡ numbers_of kept) }
    {
        let mut places = vec![in alloc; kept.len(); size]?;
        let mut left = kept.len();
        'kept: while left > 0 {
            left -= 1;
            let no = kept.get(left).unwrap();
            places[(no.0 / 2) as usize] = left;
        }
        Ok(Renaming { kept, places })
    }

    /// The entries that are kept, by the numbers that they had, in the order of the new ones.
    pub fn kept(&self) -> &EntryList
        ensures is { numbers_of result.now ≡ self.now }
        ensures few { length self.now ≤ ENTRY_LIMIT }
    {
        &self.kept
    }

    // Where the number is among those that are kept, from 0, or how many these are.
    fn place(&self, number: u64) -> usize
        ensures is { result ≡ place_of self.now number }
        ensures few { result ≤ ENTRY_LIMIT }
    {
        let at = (number / 2) as usize;
        if number % 2 == 1 && at < self.places.len() {
            self.places[at]
        } else {
            self.kept.len()
        }
    }

    /// The new number of an entry that is kept.
    pub fn number(&self, no: EntryNo) -> EntryNo
        ensures { result.0 ≡ new_number self.now no.0 }
    {
        EntryNo(2 * self.place(u64::from(no.0)) as u32 + 1)
    }

    /// The new number; 0 stays.
    pub fn renamed(&self, number: i64) -> i64
        ensures is { result ≡ renamed self.now number }
        ensures few { (n : ℕ) × (result ≡ pos n) × (n ≤ LINE_LIMIT) }
    {
        if number == 0 {
            return 0;
        }
        number_of_place(self.place(number.unsigned_abs()))
    }

    // A colour field as it is kept: only a negative one is a pointer, and is renamed.
    fn colour(&self, colour: i64) -> i64
        requires { IsTrue (fits_columns colour) }
        ensures is { result ≡ if int_lt colour (pos 0) then neg_ℤ (renamed self.now (neg_ℤ colour))
            else colour }
        ensures fits { IsTrue (fits_columns result) }
    {
        if colour < 0 {
            -self.renamed(-colour)
        } else {
            colour
        }
    }

    /// The entry as it is kept: what its fields point to is renamed, or cut where it isn't kept.
    pub fn entry(&self, entry: &Entry) -> Entry
        requires { IsBounded entry.now }
        ensures is { result ≡ new_entry self.now entry.now }
        ensures bounded { IsBounded result }
    {
        Entry {
            structure: 0,
            view: 0,
            display: 0,
            font: if_number(entry.font),
            level: if_number(entry.level),
            matrix: self.renamed(entry.matrix),
            colour: self.colour(entry.colour),
            ..*entry
        }
    }
}
