//! The faces that are reached, with the flag that each must have.

ghost use Rattle.std.specs.Prelude.{◌≡◌, ◌≢◌, ◌<◌, ◌≤◌, ◌++◌, ◌∷◌, [], ℕ, true, false, length, map, reverse, Some, slice_get, slice_set, IfOk, MatchOption, get_or};
ghost use Rattle.std.specs.List.{AllByRecursion};
ghost use Rattle.solid_data.proofs.Members.{Has};
ghost use Rattle.solid_data.specs.Chain.{LeadsTo};
ghost use Rattle.solid_data.specs.Ring.{numbers_from};
ghost use Rattle.solid_data.specs.Obligations.{FirstNot};
ghost use Rattle.orient_certificate.specs.Crossings.{IsGraph, Meets, Walk, flipped};
ghost use Rattle.face_orient.specs.Heads.{AreHeads};
ghost use Rattle.face_orient.specs.FlagWalk.{IsFlagWalk, IsDone, Grows, walked_of};
ghost use Rattle.solid_data.specs.declared.TheConstants.{PART_LIMIT};

use crate::heads::{Heads, heads_of};
use iges_base::NoMemory;
use orient_certificate::{Crossing, flip};
use std::alloc::Global;

/// Whether a face is reached, and then the flag that it must have, how many steps lead to it, and the last of these.
#[derive(Clone, Copy)]
pub struct WalkedFace {
    /// Whether steps lead here from the first face.
    pub reached: bool,
    /// The shell's flag for the face, as it follows from that of the first face; false where the face isn't reached.
    pub flag: bool,
    /// How many steps lead here from the first face; 0 for that face.
    pub depth: u32,
    /// The row of the last step, from 0; 0 for the first face and where none is reached.
    pub up: u32,
}

const UNREACHED: WalkedFace = WalkedFace {
    reached: false,
    flag: false,
    depth: 0,
    up: 0,
};

/// What is known of each face, and the faces reached in their order.
#[derive(Drop)]
pub struct FlagWalk {
    /// One for each face of the shell, by its number from 0.
    pub places: Vec<WalkedFace>,
    /// The reached faces, from 0, in the order in which they were reached; the first face is the first.
    pub order: Vec<u32>,
}

impl FlagWalk {
    // Counts a face as reached.
    fn add(&mut self, face: u32, place: WalkedFace) -> Result<(), NoMemory>
        requires { face < length self.old.places.items }
        ensures places { IfOk result (λ _. self.new.places.items
            ≡ slice_set self.old.places.items face place) }
        ensures order { IfOk result (λ _. self.new.order.items
            ≡ self.old.order.items ++ face ∷ []) }
    {
        self.order.push(face)?;
        self.places[face as usize] = place;
        Ok(())
    }

    /// Goes on by a step from a reached face.
    fn cross(
        &mut self,
        crossings: &[Crossing],
        faces: usize,
        first: bool,
        r: u32,
    ) -> Result<(), NoMemory>
        requires graph { IsGraph faces crossings.now }
        requires few { faces < PART_LIMIT }
        requires row { r < length crossings.now }
        requires known { (c : Crossing) → slice_get crossings.now r ≡ Some c
            → Has self.old.order.items c.from }
        requires walk { IsFlagWalk faces crossings.now first self.old.places.items self.old.order.items }
        ensures walk { IfOk result
            (λ _. IsFlagWalk faces crossings.now first self.new.places.items self.new.order.items) }
        ensures grows { IfOk result (λ _. Grows self.old.order.items self.new.order.items) }
        ensures there { IfOk result (λ _. (c : Crossing) → slice_get crossings.now r ≡ Some c
            → Has self.new.order.items c.to) }
    {
        let step = crossings[r as usize];
        if self.places[step.to as usize].reached {
            return Ok(());
        }
        let here = self.places[step.from as usize];
        let there = WalkedFace {
            reached: true,
            flag: flip(step.flips, here.flag),
            depth: here.depth + 1,
            up: r,
        };
        self.add(step.to, there)
    }

    /// Goes on by each step from a reached face, by rising number.
    fn leave(
        &mut self,
        crossings: &[Crossing],
        faces: usize,
        first: bool,
        heads: &Heads,
        face: u32,
    ) -> Result<(), NoMemory>
        requires graph { IsGraph faces crossings.now }
        requires few { faces < PART_LIMIT }
        requires table { AreHeads faces crossings.now heads.now.first.items heads.now.next.items }
        requires known { Has self.old.order.items face }
        requires low { face < faces }
        requires walk { IsFlagWalk faces crossings.now first self.old.places.items self.old.order.items }
        ensures walk { IfOk result
            (λ _. IsFlagWalk faces crossings.now first self.new.places.items self.new.order.items) }
        ensures grows { IfOk result (λ _. Grows self.old.order.items self.new.order.items) }
        ensures done { IfOk result (λ _. IsDone crossings.now self.new.order.items face) }
    {
        let mut r = heads.first[face as usize];
        'steps: while (r as usize) < heads.next.len() {
            self.cross(crossings, faces, first, r)?;
            r = heads.next[r as usize];
        }
        Ok(())
    }

    // Goes on from the face at a place of `order`, from 0; past the last one nothing is done.
    fn leave_next(
        &mut self,
        crossings: &[Crossing],
        faces: usize,
        first: bool,
        heads: &Heads,
        q: usize,
    ) -> Result<(), NoMemory>
        requires graph { IsGraph faces crossings.now }
        requires few { faces < PART_LIMIT }
        requires table { AreHeads faces crossings.now heads.now.first.items heads.now.next.items }
        requires walk { IsFlagWalk faces crossings.now first self.old.places.items self.old.order.items }
        ensures walk { IfOk result
            (λ _. IsFlagWalk faces crossings.now first self.new.places.items self.new.order.items) }
        ensures grows { IfOk result (λ _. Grows self.old.order.items self.new.order.items) }
        ensures same { IfOk result (λ _. length self.old.order.items ≤ q
            → self.new.order.items ≡ self.old.order.items) }
        ensures done { IfOk result (λ _. (f : ℕ) → slice_get self.new.order.items q ≡ Some f
            → IsDone crossings.now self.new.order.items f) }
    {
        if q >= self.order.len() {
            return Ok(());
        }
        let face = self.order[q];
        self.leave(crossings, faces, first, heads, face)
    }

    /// The first face alone.
    fn start(
        alloc: Global,
        crossings: &[Crossing],
        faces: usize,
        first: bool,
    ) -> Result<FlagWalk, NoMemory>
        requires { 0 < faces }
        ensures { IfOk result
            (λ walk. IsFlagWalk faces crossings.now first walk.places.items walk.order.items) }
    {
        let mut places = vec![in alloc; UNREACHED; faces]?;
        places[0] = WalkedFace {
            reached: true,
            flag: first,
            depth: 0,
            up: 0,
        };
        let mut order = Vec::new(alloc);
        order.push(0)?;
        Ok(FlagWalk { places, order })
    }

    /// All faces that steps reach from the first one, which has this flag.
    pub(crate) fn of(
        alloc: Global,
        crossings: &[Crossing],
        faces: usize,
        first: bool,
    ) -> Result<FlagWalk, NoMemory>
        requires graph { IsGraph faces crossings.now }
        requires some { 0 < faces }
        requires few { faces < PART_LIMIT }
        requires few_steps { length crossings.now < PART_LIMIT }
        ensures walk { IfOk result
            (λ walk. IsFlagWalk faces crossings.now first walk.places.items walk.order.items) }
        ensures done { IfOk result (λ walk. (f : ℕ) → Has walk.order.items f
            → IsDone crossings.now walk.order.items f) }
    {
        let heads = heads_of(alloc, crossings, faces)?;
        let mut walk = FlagWalk::start(alloc, crossings, faces, first)?;
        'places: for q in 0..faces {
            walk.leave_next(crossings, faces, first, &heads, q)?;
        }
        Ok(walk)
    }
}
