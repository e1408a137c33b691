//! Numbers of the items of lists.

ghost use Rattle.std.specs.Prelude.{◌≡◌, ℕ, IfSome, IfNone, IfOk, OnOk};
ghost use Rattle.brep_numbering.specs.Slots.{slot_of, HasSlots, HasNoSlots};

use crate::positions::{Positions, end_position};
use iges_base::{EntryNo, NoMemory};
use std::alloc::Global;
use std::marker::Model;

/// A number for each item of each list, found by a few loads. Each list that has a number has slots of its own, which grow
/// to the largest index that is numbered.
#[derive(Drop)]
pub struct ItemSlots {
    alloc: Global,
    lists: Positions,
    slots: Vec<(EntryNo, Positions)>,
}

impl Model for ItemSlots {
    ghost use Rattle.brep_numbering.specs.Slots.{Slots};

    ghost Value = { Slots };

    ghost view = { λ s. record { lists = s.lists; slots = s.slots.items } };
}

impl ItemSlots {
    /// Number 0 for every item.
    pub fn new(alloc: Global) -> ItemSlots {
        ItemSlots {
            alloc,
            lists: Positions::new(alloc),
            slots: Vec::new(alloc),
        }
    }

    /// The number of an item of a list, which is 0 where none was set.
    pub fn get(&self, list: EntryNo, index: u32) -> u32
        ensures { result ≡ slot_of self.now list.0 index }
    {
        match self.slots.get(self.lists.get(list.0) as usize) {
            Some((owner, slots)) if *owner == list => slots.get(index),
            _ => 0,
        }
    }

    // The place of a list's slots, where it has some.
    fn find(&self, list: EntryNo) -> Option<usize>
        ensures found { IfSome result (HasSlots self.now list) }
        ensures none { IfNone result (HasNoSlots self.now list) }
    {
        let place = self.lists.get(list.0) as usize;
        let Some((owner, _)) = self.slots.get(place) else {
            return None;
        };
        if *owner == list { Some(place) } else { None }
    }

    // The place of a list's slots, which are made where there are none.
    fn place(&mut self, list: EntryNo) -> Result<usize, NoMemory>
        ensures same { (l i : ℕ) → slot_of self.new l i ≡ slot_of self.old l i }
        ensures place { IfOk result (HasSlots self.new list) }
    {
        if let Some(place) = self.find(list) {
            return Ok(place);
        }
        let end = end_position(self.slots.len())?;
        self.lists.set(list.0, end)?;
        self.slots.push((list, Positions::new(self.alloc)))?;
        Ok(end as usize)
    }

    /// Sets the number of an item.
    pub fn set(&mut self, list: EntryNo, index: u32, number: u32) -> Result<(), NoMemory>
        ensures set { OnOk result (slot_of self.new list.0 index ≡ number) }
        ensures others { (l i : ℕ) → ¬ ((l ≡ list.0) × (i ≡ index))
            → slot_of self.new l i ≡ slot_of self.old l i }
    {
        let place = self.place(list)?;
        let slots = &mut self.slots[place].1;
        slots.set(index, number)
    }
}
