//! Memory that may run out.

use iges_base::ItemList;
use std::alloc::Global;

/// Memory for lists. A list that gets none stays as it is, and steps go on with it; whoever began looks at the end whether memory
/// ran out.
#[derive(Clone, Copy)]
pub struct Memory {
    alloc: Global,
    ran_out: bool,
}

impl Memory {
    pub fn new(alloc: Global) -> Memory {
        Memory {
            alloc,
            ran_out: false,
        }
    }

    pub fn alloc(&self) -> Global {
        self.alloc
    }

    /// Whether some list got none.
    pub fn has_run_out(&self) -> bool {
        self.ran_out
    }

    /// Some list got none.
    pub fn run_out(&mut self) {
        self.ran_out = true;
    }

    /// A list of nothing.
    pub fn list<T: Drop>(&self) -> Vec<T> {
        Vec::new(self.alloc)
    }

    /// A list of nothing, with room for so many.
    pub fn room<T: Drop>(&mut self, count: usize) -> Vec<T> {
        match Vec::with_capacity(self.alloc, count) {
            Ok(list) => list,
            Err(_) => {
                self.ran_out = true;
                Vec::new(self.alloc)
            }
        }
    }

    /// A list of nothing.
    pub fn items<T: Drop>(&self) -> ItemList<T> {
        ItemList::new(self.alloc)
    }

    /// A list of nothing, with room for so many.
    pub fn items_room<T: Drop>(&mut self, count: usize) -> ItemList<T> {
        match ItemList::with_room(self.alloc, count) {
            Ok(list) => list,
            Err(_) => {
                self.ran_out = true;
                ItemList::new(self.alloc)
            }
        }
    }

    /// So many times the same.
    pub fn many<T: Copy + Drop>(&mut self, count: u32, item: T) -> Vec<T> {
        let mut out = Vec::new(self.alloc);
        if out.resize(count as usize, item).is_err() {
            self.ran_out = true;
        }
        out
    }

    /// So many times the same number.
    pub fn filled(&mut self, count: u32, n: u32) -> Vec<u32> {
        self.many(count, n)
    }

    /// So many times false.
    pub fn unset(&mut self, count: u32) -> Vec<bool> {
        self.many(count, false)
    }

    /// The same items again.
    pub fn copied<T: Copy + Drop>(&mut self, items: &[T]) -> Vec<T> {
        let mut out = Vec::new(self.alloc);
        if out.extend_from_slice(items).is_err() {
            self.ran_out = true;
        }
        out
    }

    /// Puts an item at the end.
    pub fn add<T: Drop>(&mut self, list: &mut Vec<T>, item: T) {
        if list.push(item).is_err() {
            self.ran_out = true;
        }
    }

    /// Puts an item at the end.
    pub fn add_item<T: Drop>(&mut self, list: &mut ItemList<T>, item: T) {
        if list.push(item).is_err() {
            self.ran_out = true;
        }
    }

    /// Sorts a list.
    pub fn sort<T: Ord + Drop>(&mut self, list: &mut Vec<T>) {
        if list.sort().is_err() {
            self.ran_out = true;
        }
    }
}
