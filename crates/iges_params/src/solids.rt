//! Entries by their places, and the solids among them.

ghost use Rattle.iges_params.specs.Made.{IsMade};
ghost use Rattle.iges_params.specs.Named.{named};
ghost use Rattle.iges_params.specs.Solids.{is_solid, is_solid_at, numbers_of, solids_from, solids_of};
ghost use Rattle.std.specs.Prelude.{◌≡◌, ◌+◌, ◌*◌, ◌<◌, ◌++◌, None, IfOk, MatchOption, OnOk, drop, length, pos};

use crate::file::File;
use iges_base::{EntryNo, ItemList, NoMemory};
use std::alloc::Global;

// The entity type of a manifold solid B-rep object (IGES 5.3, 4.49).
const SOLID: i64 = 186;

impl File {
    /// The number of the i-th entry, i from 0 (IGES 5.3, 2.2.4.4).
    #[inline(always)]
    pub fn entry_no(&self, i: usize) -> EntryNo
        requires { i < length self.now.entries }
        ensures { result.0 ≡ 2 * i + 1 }
    {
        let count = self.entry_count();
        prove!(i < count);
        EntryNo(2 * i as u32 + 1)
    }

    /// The number as an entry's; None where it lies outside the directory (IGES 5.3, 2.2.4.4). An entry of type 0
    /// counts as within it.
    pub fn entry_no_of(&self, number: i64) -> Option<EntryNo>
        ensures named { MatchOption result (named self.now number ≡ None) (λ no. number ≡ pos no.0) }
        ensures made { IsMade self.now }
    {
        let lines = 2 * self.entry_count();
        match u32::try_from(number) {
            Ok(no) if (no as usize) < lines => Some(EntryNo(no)),
            _ => None,
        }
    }

    /// Whether the i-th entry, i from 0, is a solid: of type 186 (IGES 5.3, 4.49).
    #[inline(always)]
    pub fn is_solid_at(&self, i: usize) -> bool
        requires { i < length self.now.entries }
        ensures { result ≡ is_solid_at self.now i }
    {
        let count = self.entry_count();
        prove!(i < count);
        self.entry_at(i).unwrap().kind == SOLID
    }

    /// Whether the number names a solid: an entry of type 186 (IGES 5.3, 4.49).
    pub fn is_solid(&self, no: EntryNo) -> bool
        ensures { result ≡ is_solid self.now no.0 }
    {
        match self.entry(no) {
            Some(entry) => entry.kind == SOLID,
            None => false,
        }
    }

    // Puts the number of the i-th entry at the end, where it is a solid.
    fn push_solid(&self, list: &mut ItemList<EntryNo>, i: usize) -> Result<(), NoMemory>
        requires { i < length self.now.entries }
        ensures { OnOk result (numbers_of list.new ++ solids_from (i + 1) (drop (i + 1) self.now.entries)
            ≡ numbers_of list.old ++ solids_from i (drop i self.now.entries)) }
    {
        if !self.is_solid_at(i) {
            return Ok(());
        }
        list.push(self.entry_no(i))
    }

    /// The numbers of the solids, the entries of type 186, in directory order (IGES 5.3, 4.49). It errs only where
    /// memory runs out.
    pub fn solids(&self, alloc: Global) -> Result<ItemList<EntryNo>, NoMemory>
        ensures { IfOk result (λ list. numbers_of list ≡ solids_of self.now) }
    {
        let mut list = ItemList::new(alloc);
        'entries: for i in 0..self.entry_count() {
            self.push_solid(&mut list, i)?;
        }
        Ok(list)
    }
}
