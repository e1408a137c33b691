//! How many pieces a change has, and where their faces are.

ghost use Rattle.std.specs.Prelude.{◌≡◌, ◌+◌, max, map};
ghost use Rattle.edge_uses.specs.Before.{above_of};
ghost use Rattle.change_pieces.specs.Pieces.{kept_face, kept_faces, piece_of};

use crate::names::narrow;
use iges_base::NoMemory;
use shell_change::{Change, Fate, item_at};
use std::alloc::Global;

// The least number that is above the piece of a face and not below `above`.
fn above_face(fate: &Fate, above: usize) -> usize
    ensures { result ≡ max above (above_of (map piece_of (kept_face fate.now))) }
{
    match fate {
        Fate::Removed => above,
        Fate::Kept(face) => above.max(face.piece as usize + 1),
    }
}

/// How many pieces there are, if each has a kept face.
pub(crate) fn piece_count(fates: &[Fate]) -> usize
    ensures { result ≡ above_of (map piece_of (kept_faces fates.now)) }
{
    let mut above = 0;
    'faces: for i in 0..fates.len() {
        above = above_face(item_at(fates, i), above);
    }
    above
}

fn put(places: &mut Vec<Vec<u32>>, piece: u32, place: usize) -> Result<(), NoMemory> {
    if let Some(list) = places.get_mut(piece as usize) {
        list.push(narrow(place)?)?;
    }
    Ok(())
}

/// For each piece the places of its faces: of the kept faces' list, or behind it of the rims.
pub(crate) fn places_of_pieces(
    alloc: Global,
    change: &Change,
    count: usize,
) -> Result<Vec<Vec<u32>>, NoMemory> {
    let faces = change.faces.as_slice();
    let rims = change.rims.as_slice();
    let mut places = Vec::with_capacity(alloc, count)?;
    for _ in 0..count {
        places.push(Vec::new(alloc))?;
    }
    for i in 0..faces.len() {
        if let Fate::Kept(face) = &faces[i] {
            put(&mut places, face.piece, i)?;
        }
    }
    for i in 0..rims.len() {
        put(&mut places, rims[i].piece, faces.len().saturating_add(i))?;
    }
    Ok(places)
}
