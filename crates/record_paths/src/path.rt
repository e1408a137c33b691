//! Paths through the records of a solid.

use iges_base::EntryNo;

/// A shell, a face or a loop, and the item of the record above that names it, from 1: of a solid's record the outer
/// shell is item 1, and the voids follow.
#[derive(Clone, Copy)]
pub struct Step {
    pub entity: EntryNo,
    pub item: usize,
}

/// Through which shell, face and loop of a solid a path leads; None where it ends before.
#[derive(Clone, Copy)]
pub struct Path {
    pub shell: Option<Step>,
    pub face: Option<Step>,
    pub the_loop: Option<Step>,
}
