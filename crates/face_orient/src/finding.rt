//! Flags or a ring, once all faces are reached.

ghost use Rattle.std.specs.Prelude.{◌≡◌, ◌≢◌, ◌<◌, ℕ, length, map, Some, slice_get, IfOk, MatchOption};
ghost use Rattle.std.specs.List.{AllByRecursion};
ghost use Rattle.solid_data.specs.Chain.{LeadsTo};
ghost use Rattle.solid_data.specs.Obligations.{FirstNot};
ghost use Rattle.solid_data.specs.Ring.{numbers_from};
ghost use Rattle.solid_data.proofs.Members.{Has};
ghost use Rattle.orient_certificate.specs.declared.crossing.Crossing.{Crossing as AnyCrossing};
ghost use Rattle.face_orient.specs.declared.flag_walk.WalkedFace.{WalkedFace as AnyWalkedFace};
ghost use Rattle.orient_certificate.specs.Crossings.{IsGraph, Meets, flipped};
ghost use Rattle.face_orient.specs.FlagWalk.{IsFlagWalk, IsDone, walked_of};
ghost use Rattle.orient_certificate.specs.Graph.{IsFound};
ghost use Rattle.face_orient.specs.Steady.{IsSteady};
ghost use Rattle.solid_data.specs.declared.TheConstants.{PART_LIMIT};

use crate::flag_walk::FlagWalk;
use crate::ring::ring_of;
use iges_base::NoMemory;
use orient_certificate::{Crossing, FlagList, Orientation, flip};
use solid_data::FaceAt;
use std::alloc::Global;

/// The least face that isn't reached.
pub(crate) fn first_unreached(
    walk: &FlagWalk,
    crossings: &[Crossing],
    faces: usize,
    first: bool,
) -> Option<FaceAt>
    requires few { faces < PART_LIMIT }
    requires walk { IsFlagWalk faces crossings.now first walk.now.places.items walk.now.order.items }
    requires done { (f : ℕ) → Has walk.now.order.items f
        → IsDone crossings.now walk.now.order.items f }
    ensures { MatchOption result (AllByRecursion (LeadsTo (Meets crossings.now) 0)
        (numbers_from 0 faces)) (λ f. FirstNot (LeadsTo (Meets crossings.now) 0)
        (numbers_from 0 faces) f.0) }
{
    'faces: for f in 0..faces {
        if !walk.places[f].reached {
            return Some(FaceAt(f as u32));
        }
    }
    None
}

/// The least step that leads from the flag of its face to another than that of the other face.
fn first_unsteady(walk: &FlagWalk, crossings: &[Crossing], faces: usize) -> Option<u32>
    requires graph { IsGraph faces crossings.now }
    requires few { length crossings.now < PART_LIMIT }
    requires size { length walk.now.places.items ≡ faces }
    ensures { MatchOption result ((r : ℕ) (c : AnyCrossing) → slice_get crossings.now r ≡ Some c → IsSteady walk.now.places.items c)
        (λ r. (c : AnyCrossing) × (slice_get crossings.now r ≡ Some c) × (¬ IsSteady walk.now.places.items c)) }
{
    'steps: for r in 0..crossings.len() {
        let step = crossings[r];
        let here = walk.places[step.from as usize];
        let there = walk.places[step.to as usize];
        if there.flag != flip(step.flips, here.flag) {
            return Some(r as u32);
        }
    }
    None
}

fn flags_of(alloc: Global, walk: &FlagWalk) -> Result<FlagList, NoMemory>
    ensures { IfOk result (λ flags. flags ≡ map (λ (p : AnyWalkedFace). p.flag) walk.now.places.items) }
{
    let mut flags = FlagList::new(alloc);
    'places: for i in 0..walk.places.len() {
        flags.push(walk.places[i].flag)?;
    }
    Ok(flags)
}

/// Flags that agree with each step, or a ring that no flags satisfy.
pub(crate) fn found(
    alloc: Global,
    crossings: &[Crossing],
    walk: &FlagWalk,
    faces: usize,
    first: bool,
) -> Result<Orientation, NoMemory>
    requires graph { IsGraph faces crossings.now }
    requires few { length crossings.now < PART_LIMIT }
    requires walk { IsFlagWalk faces crossings.now first walk.now.places.items walk.now.order.items }
    requires all { (f : ℕ) → f < faces → Has walk.now.order.items f }
    ensures { IfOk result (IsFound crossings.now faces first) }
{
    match first_unsteady(walk, crossings, faces) {
        None => Ok(Orientation::Flags(flags_of(alloc, walk)?)),
        Some(r) => Ok(Orientation::Ring(ring_of(alloc, crossings, walk, faces, first, r)?)),
    }
}
