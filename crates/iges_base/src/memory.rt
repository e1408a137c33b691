//! Memory that is given back, or left to the system.

use std::mem;

/// What becomes of memory that isn't needed any more.
#[derive(Clone, Copy)]
pub enum Memory {
    /// It is given back.
    GivenBack,
    /// It is left to the system, since the process ends soon.
    Left,
}

impl Memory {
    /// Lets a value go.
    pub fn release<T: Drop>(self, value: T) {
        match self {
            Memory::GivenBack => drop(value),
            Memory::Left => mem::forget(value),
        }
    }
}
