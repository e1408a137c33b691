//! A ring of rows that no flags satisfy.

ghost use Rattle.std.specs.Prelude.{◌≡◌, ◌≢◌, ◌<◌, ◌++◌, ◌∷◌, [], ℕ, Bool, true, List, length, map, reverse, Some, slice_get, IfOk};
ghost use Rattle.std.specs.List.{AllByRecursion};
ghost use Rattle.solid_data.proofs.Members.{Has};
ghost use Rattle.orient_certificate.specs.OddRing.{row_numbers};
ghost use Rattle.orient_certificate.specs.Crossings.{IsGraph, Climb, IsOddWalk, partner_of, flipped};
ghost use Rattle.face_orient.specs.FlagWalk.{IsFlagWalk, walked_of};
ghost use Rattle.orient_certificate.specs.declared.crossing.Crossing.{Crossing as AnyCrossing};
ghost use Rattle.face_orient.specs.Paths.{EndAlike, LeadUpTo};

use crate::flag_walk::FlagWalk;
use iges_base::NoMemory;
use orient_certificate::Crossing;
use solid_data::{RowId, RowList};
use std::alloc::Global;

/// The rows by which a face was reached, the last one first.
fn climb(
    alloc: Global,
    crossings: &[Crossing],
    walk: &FlagWalk,
    faces: usize,
    first: bool,
    face: u32,
) -> Result<Vec<u32>, NoMemory>
    requires walk { IsFlagWalk faces crossings.now first walk.now.places.items walk.now.order.items }
    requires known { Has walk.now.order.items face }
    ensures { IfOk result (λ path. Climb crossings.now face
        (walked_of walk.now.places.items face).flag path.items 0 first) }
{
    let mut path = Vec::new(alloc);
    let mut at = face;
    'up: while walk.places[at as usize].depth > 0 {
        let up = walk.places[at as usize].up;
        path.push(up)?;
        at = crossings[up as usize].from;
    }
    Ok(path)
}

/// Whether two paths end with the same row.
fn end_alike(down: &[u32], up: &[u32]) -> bool
    ensures { result ≡ true → EndAlike down.now up.now }
{
    match (down.last(), up.last()) {
        (Some(a), Some(b)) => *a == *b,
        _ => false,
    }
}

/// Drops the rows with which two paths end alike.
fn drop_common(down: &mut Vec<u32>, up: &mut Vec<u32>)
    ensures { (cs : List AnyCrossing) (a b : ℕ) (p q : Bool)
        → LeadUpTo cs a p down.old.items b q up.old.items
        → LeadUpTo cs a p down.new.items b q up.new.items }
{
    'ends: while end_alike(down.as_slice(), up.as_slice()) {
        down.pop();
        up.pop();
    }
}

// Appends the rows of a path, the last one first.
fn push_reversed(rows: &mut RowList, path: &[u32]) -> Result<(), NoMemory>
    ensures { IfOk result (λ _. row_numbers rows.new ≡ row_numbers rows.old ++ reverse path.now) }
{
    let count = path.len();
    'path: for i in 0..count {
        rows.push(RowId(path[count - 1 - i]))?;
    }
    Ok(())
}

// Appends the partner of each row of a path.
fn push_partners(rows: &mut RowList, crossings: &[Crossing], path: &[u32]) -> Result<(), NoMemory>
    requires { AllByRecursion (λ r. r < length crossings.now) path.now }
    ensures { IfOk result (λ _. row_numbers rows.new
        ≡ row_numbers rows.old ++ map (partner_of crossings.now) path.now) }
{
    'path: for i in 0..path.len() {
        rows.push(RowId(crossings[path[i] as usize].partner))?;
    }
    Ok(())
}

/// A row, down to which one path leads, and up from whose other side another.
fn joined(
    alloc: Global,
    crossings: &[Crossing],
    down: &[u32],
    r: u32,
    up: &[u32],
) -> Result<RowList, NoMemory>
    requires { AllByRecursion (λ x. x < length crossings.now) up.now }
    ensures { IfOk result (λ rows. row_numbers rows
        ≡ reverse down.now ++ r ∷ map (partner_of crossings.now) up.now) }
{
    let mut rows = RowList::new(alloc);
    push_reversed(&mut rows, down)?;
    rows.push(RowId(r))?;
    push_partners(&mut rows, crossings, up)?;
    Ok(rows)
}

/// A ring over a step whose two faces have flags that disagree.
pub(crate) fn ring_of(
    alloc: Global,
    crossings: &[Crossing],
    walk: &FlagWalk,
    faces: usize,
    first: bool,
    r: u32,
) -> Result<RowList, NoMemory>
    requires graph { IsGraph faces crossings.now }
    requires walk { IsFlagWalk faces crossings.now first walk.now.places.items walk.now.order.items }
    requires all { (f : ℕ) → f < faces → Has walk.now.order.items f }
    requires row { r < length crossings.now }
    requires odd { (c : AnyCrossing) → slice_get crossings.now r ≡ Some c
        → (walked_of walk.now.places.items c.to).flag ≢ flipped c.flips
        (walked_of walk.now.places.items c.from).flag }
    ensures { IfOk result (λ rows. IsOddWalk crossings.now (row_numbers rows)) }
{
    let step = crossings[r as usize];
    let mut down = climb(alloc, crossings, walk, faces, first, step.from)?;
    let mut up = climb(alloc, crossings, walk, faces, first, step.to)?;
    drop_common(&mut down, &mut up);
    joined(alloc, crossings, down.as_slice(), r, up.as_slice())
}
