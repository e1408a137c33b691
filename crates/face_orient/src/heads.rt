//! The steps from each face.

ghost use Rattle.std.specs.Prelude.{◌≡◌, ◌<◌, length, IfOk};
ghost use Rattle.orient_certificate.specs.Crossings.{IsGraph};
ghost use Rattle.face_orient.specs.Heads.{AreHeads};
ghost use Rattle.solid_data.specs.declared.TheConstants.{PART_LIMIT};

use iges_base::NoMemory;
use orient_certificate::Crossing;
use std::alloc::Global;

/// For each face its first step, and for each step the next one from its face; the number of steps where there is none.
#[derive(Drop)]
pub struct Heads {
    /// By face, from 0.
    pub first: Vec<u32>,
    /// By step, from 0.
    pub next: Vec<u32>,
}

/// The steps from each of some faces, by rising number.
pub(crate) fn heads_of(
    alloc: Global,
    crossings: &[Crossing],
    faces: usize,
) -> Result<Heads, NoMemory>
    requires graph { IsGraph faces crossings.now }
    requires few { length crossings.now < PART_LIMIT }
    ensures { IfOk result (λ t. AreHeads faces crossings.now t.first.items t.next.items) }
{
    let count = crossings.len();
    let mut first = vec![in alloc; count as u32; faces]?;
    let mut next = vec![in alloc; count as u32; count]?;
    'steps: for k in 0..count {
        let r = count - 1 - k;
        let face = crossings[r].from as usize;
        next[r] = first[face];
        first[face] = r as u32;
    }
    Ok(Heads { first, next })
}
