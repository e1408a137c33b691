//! Replacing an item of a list, dropping those at its end, and taking all of them.

ghost use Rattle.std.specs.Prelude.{◌≡◌, ◌<◌, [], IfOk, OnOk, Some, length, set, slice_get, take};

use crate::list::ItemList;
use crate::no_memory::NoMemory;
use std::alloc::Global;
use std::mem;

// The items in memory of their own, which is as large as they need.
fn moved<T: Drop>(alloc: Global, items: &mut Vec<T>) -> Result<Vec<T>, NoMemory>
    ensures { IfOk result (λ moved. moved.items ≡ items.old.items) }
{
    let mut moved = Vec::with_capacity(alloc, items.len())?;
    moved.append(items)?;
    Ok(moved)
}

impl<T: Drop> ItemList<T> {
    /// Puts an item in the place of the i-th, counted from 0, which is dropped.
    #[inline(always)]
    pub fn set(&mut self, i: usize, item: T)
        requires { i < length self.old }
        ensures { self.new ≡ set self.old i item }
    {
        self.items[i] = item;
    }

    /// Puts an item in the place of the i-th, counted from 0, and gives that.
    #[inline(always)]
    pub fn replace(&mut self, i: usize, item: T) -> T
        requires { i < length self.old }
        ensures list { self.new ≡ set self.old i item }
        ensures old { slice_get self.old i ≡ Some result }
    {
        mem::replace(&mut self.items[i], item)
    }

    /// Drops all items after the first so many.
    pub fn truncate(&mut self, count: usize)
        ensures { self.new ≡ take count self.old }
    {
        self.items.truncate(count);
    }

    /// The items in a list of their own, which takes no more memory than they need. None are left here, but their room is,
    /// also where memory runs out.
    pub fn taken(&mut self, alloc: Global) -> Result<ItemList<T>, NoMemory>
        ensures ok { IfOk result (λ list. list ≡ self.old) }
        ensures left { self.new ≡ [] }
    {
        let items = moved(alloc, &mut self.items);
        self.items.clear();
        Ok(ItemList { items: items? })
    }
}
