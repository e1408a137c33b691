//! The entries of a file, each with the values of its record.

ghost use Rattle.iges_directory.specs.declared.entry.Entry.{Entry as OneEntry};
ghost use Rattle.iges_directory.specs.Paired.{paired};
ghost use Rattle.std.specs.Prelude.{◌≡◌, ◌<◌, ◌↔◌, [], ◌∷◌, ◌++◌, Some, IsSome, OnOk, OnErr, length, option_copied, option_map, set, slice_get};

use crate::entry::{Entry, Placed};
use iges_base::NoMemory;
use iges_fields::Values;
use std::alloc::Global;
use std::marker::Model;
use std::mem;

/// Entries in order, each with the values of its record without the type number.
#[derive(Drop)]
pub struct EntryRecords {
    // As the directory has them: so they needn't be copied.
    placed: Vec<Placed>,
    values: Vec<Values>,
}

impl Model for EntryRecords {
    ghost use Rattle.iges_directory.specs.Paired.{Pairs, paired};
    ghost use Rattle.std.specs.Prelude.{◌≡◌, length};

    ghost Value = { Pairs };

    ghost view = { λ l. paired l.placed.items l.values.items };

    ghost invariant = { λ l. length l.placed.items ≡ length l.values.items };
}

impl EntryRecords {
    /// No entries.
    pub fn new(alloc: Global) -> EntryRecords
        ensures { result ≡ [] }
    {
        EntryRecords {
            placed: Vec::new(alloc),
            values: Vec::new(alloc),
        }
    }

    /// Entries with their values, place by place.
    pub fn of(placed: Vec<Placed>, values: Vec<Values>) -> EntryRecords
        requires { length placed.items ≡ length values.items }
        ensures { result ≡ paired placed.items values.items }
    {
        EntryRecords { placed, values }
    }

    /// Takes the room for so many entries more, where there is memory for it, so that the list isn't moved as it grows.
    pub fn reserve(&mut self, count: usize)
        ensures { self.new ≡ self.old }
    {
        let _placed = self.placed.reserve_exact(count);
        let _values = self.values.reserve_exact(count);
    }

    /// Puts an entry with its values at the end. Where memory runs out, the values are dropped.
    #[inline(always)]
    pub fn push(&mut self, entry: Entry, values: Values) -> Result<(), NoMemory>
        ensures ok { OnOk result (self.new ≡ self.old ++ (entry, values) ∷ []) }
        ensures err { OnErr result (self.new ≡ self.old) }
    {
        let count = self.values.len();
        self.placed.push(Placed {
            entry,
            first: 0,
            count: 0,
        })?;
        let Err(_) = self.values.push(values) else {
            return Ok(());
        };
        self.placed.truncate(count);
        Err(NoMemory)
    }

    /// How many entries there are.
    pub fn count(&self) -> usize
        ensures { result ≡ length self.now }
    {
        self.placed.len()
    }

    /// The i-th entry, i from 0; None past the end.
    pub fn entry(&self, i: usize) -> Option<&Entry>
        ensures entry { option_copied result ≡ option_map (λ e. e.0) (slice_get self.now i) }
        ensures within { IsSome result ↔ (i < length self.now) }
    {
        if i >= self.placed.len() {
            return None;
        }
        Some(&self.placed[i].entry)
    }

    /// The values of the i-th entry, i from 0; None past the end.
    pub fn values(&self, i: usize) -> Option<&Values>
        ensures { option_copied result ≡ option_map (λ e. e.1) (slice_get self.now i) }
    {
        if i >= self.values.len() {
            return None;
        }
        Some(&self.values[i])
    }

    /// Takes the values of the i-th entry, i from 0, which has none from then on.
    pub fn take_values(&mut self, alloc: Global, i: usize) -> Values
        requires { i < length self.old }
        ensures taken { option_map (λ e. e.1) (slice_get self.old i) ≡ Some result }
        ensures left { (entry : OneEntry)
            → option_map (λ e. e.0) (slice_get self.old i) ≡ Some entry
            → self.new ≡ set self.old i (entry, []) }
    {
        mem::replace(&mut self.values[i], Values::new(alloc))
    }
}
