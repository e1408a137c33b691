//! The state of a walk.

ghost use Rattle.std.specs.Prelude.{◌≡◌, []};

use crate::lists::Lists;
use brep_numbering::{NumberSet, Numbering};
use iges_params::File;
use std::alloc::Global;

/// What a walk has looked at, numbered and named so far. No loop, no face and no shell may be named twice.
#[derive(Drop)]
pub struct WalkState<'a> {
    pub lists: Lists<'a>,
    pub numbering: Numbering,
    pub loops: NumberSet,
    pub faces: NumberSet,
    pub shells: NumberSet,
}

impl<'a> WalkState<'a> {
    ghost use Rattle.brep_walk.specs.Walks.{Begins};

    /// A walk through a file in which no edge and no vertex was used and nothing was named yet.
    pub fn new(alloc: Global, file: &'a File) -> WalkState<'a>
        ensures begins { Begins file.now result }
        ensures shells { result.shells ≡ [] }
    {
        WalkState {
            lists: Lists::new(alloc, file),
            numbering: Numbering::new(alloc),
            loops: NumberSet::new(alloc),
            faces: NumberSet::new(alloc),
            shells: NumberSet::new(alloc),
        }
    }

    /// Begins again, with no edge and no vertex used and nothing named. The lists that were looked at are kept.
    pub fn restart(&mut self, alloc: Global)
        ensures begins { Begins self.old.lists self.new }
        ensures shells { self.new.shells ≡ [] }
    {
        self.numbering.restart(alloc);
        self.loops.clear();
        self.faces.clear();
        self.shells.clear();
    }
}
