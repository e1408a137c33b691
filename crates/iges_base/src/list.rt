//! Lists of any items, for which memory may run out.

ghost use Rattle.std.specs.Prelude.{◌≡◌, ◌<◌, ◌≤◌, ◌^◌, ◌↔◌, ◌∷◌, ◌++◌, [], length, IfOk, IsSome, IfSome, OnOk, OnErr, option_copied, slice_get};

mod editing;

use crate::no_memory::NoMemory;
use std::alloc::Global;
use std::marker::Model;

/// A list that grows at its end, seen as the list of its items.
#[derive(Drop)]
pub struct ItemList<T> {
    items: Vec<T>,
}

impl<T> Model for ItemList<T> {
    ghost use Rattle.std.specs.Prelude.{List};

    ghost Value = { List T };

    ghost view = { λ list. list.items.items };
}

impl<T: Drop> ItemList<T> {
    /// A list of no items, which takes no memory yet.
    pub fn new(alloc: Global) -> ItemList<T>
        ensures { result ≡ [] }
    {
        ItemList {
            items: Vec::new(alloc),
        }
    }

    /// A list of no items, with room for so many. It errs only where memory runs out.
    pub fn with_room(alloc: Global, count: usize) -> Result<ItemList<T>, NoMemory>
        ensures { IfOk result (λ list. list ≡ []) }
    {
        Ok(ItemList {
            items: Vec::with_capacity(alloc, count)?,
        })
    }

    /// Puts an item at the end. Where memory runs out, the item is dropped and the list is as it was.
    #[inline(always)]
    pub fn push(&mut self, item: T) -> Result<(), NoMemory>
        ensures ok { OnOk result (self.new ≡ self.old ++ item ∷ []) }
        ensures err { OnErr result (self.new ≡ self.old) }
    {
        self.items.push(item)?;
        Ok(())
    }

    /// Gives back the room that no item needs. Where memory for a smaller block runs out, the room stays.
    pub fn fit(&mut self)
        ensures { self.new ≡ self.old }
    {
        self.items.shrink_to_fit();
    }

    /// How many items there are.
    pub fn len(&self) -> usize
        ensures { result ≡ length self.now }
    {
        self.items.len()
    }

    /// The items in their order.
    pub fn as_slice(&self) -> &[T]
        ensures { result.now ≡ self.now }
    {
        self.items.as_slice()
    }

    /// The i-th item, counted from 0; None past the end.
    pub fn get(&self, i: usize) -> Option<&T>
        ensures item { option_copied result ≡ slice_get self.now i }
        ensures within { IsSome result ↔ (i < length self.now) }
        ensures few { IfSome result (λ _. length self.now < 2 ^ 64) }
    {
        if i >= self.items.len() {
            return None;
        }
        Some(&self.items[i])
    }
}
