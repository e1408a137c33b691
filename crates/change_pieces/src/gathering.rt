//! Whether the shells that were made have the faces of the pieces.

ghost use Rattle.std.specs.Prelude.{◌≡◌, ◌+◌, ◌<◌, ◌++◌, ◌∷◌, [], IsTrue, IfOk, List, get_or, length, map, option_copied, replicate, slice_get, slice_set};
ghost use Rattle.shell_change.specs.declared.change.FaceNow.{FaceNow as AnyFaceNow};
ghost use Rattle.shell_change.specs.declared.change.Rim.{Rim as AnyRim};
ghost use Rattle.shell_change.specs.Matching.{EachAt};
ghost use Rattle.change_pieces.specs.Gathered.{AreGathered, HasAll, face_in as face_in_shell};
ghost use Rattle.change_pieces.specs.Pieces.{IsPiece, face_on, faces_after, faces_of, kept_face, kept_faces};

use crate::comparing::{is_face, is_rim_face};
use iges_base::NoMemory;
use shell_change::{Change, EdgeName, FaceNow, Fate, Rim, VertexName, item_at};
use solid_data::{FaceUse, Shell};
use std::alloc::Global;

fn face_in(shell: Option<&Shell>, place: u32) -> Option<&FaceUse>
    ensures { option_copied result ≡ face_in_shell (option_copied shell.entry) place }
{
    match shell {
        None => None,
        Some(shell) => shell.faces.get(place as usize),
    }
}

fn count_of(counts: &[u32], piece: u32) -> u32
    ensures { result ≡ get_or counts.now piece 0 }
{
    match counts.get(piece as usize) {
        None => 0,
        Some(count) => *count,
    }
}

// The next face of a piece that wasn't compared.
fn next_face<'a>(shells: &'a [Shell], counts: &[u32], piece: u32) -> Option<&'a FaceUse>
    ensures { option_copied result ≡ face_in_shell (slice_get shells.now piece) (get_or counts.now piece 0) }
{
    face_in(shells.get(piece as usize), count_of(counts, piece))
}

fn count_one(counts: &mut [u32], piece: u32) -> bool
    ensures inside { IsTrue result → piece < length counts.old }
    ensures counts { IsTrue result → counts.new ≡ slice_set counts.old piece (get_or counts.old piece 0 + 1) }
{
    let piece = piece as usize;
    if piece >= counts.len() || counts[piece] == u32::MAX {
        return false;
    }
    counts[piece] += 1;
    true
}

fn gather_face(
    shells: &[Shell],
    vertices: &[VertexName],
    edges: &[EdgeName],
    counts: &mut [u32],
    now: &FaceNow,
) -> bool
    ensures { IsTrue result → (seen : List AnyFaceNow) → AreGathered vertices.now edges.now shells.now seen counts.old
        → AreGathered vertices.now edges.now shells.now (seen ++ now.now ∷ []) counts.new }
{
    let Some(face) = next_face(shells, counts, now.piece) else {
        return false;
    };
    if !is_face(vertices, edges, now, face) {
        return false;
    }
    count_one(counts, now.piece)
}

fn gather_fate(
    shells: &[Shell],
    vertices: &[VertexName],
    edges: &[EdgeName],
    counts: &mut [u32],
    fate: &Fate,
) -> bool
    ensures { IsTrue result → (seen : List AnyFaceNow) → AreGathered vertices.now edges.now shells.now seen counts.old
        → AreGathered vertices.now edges.now shells.now (seen ++ kept_face fate.now) counts.new }
{
    match fate {
        Fate::Removed => true,
        Fate::Kept(face) => gather_face(shells, vertices, edges, counts, face),
    }
}

fn gather_fates(
    shells: &[Shell],
    vertices: &[VertexName],
    edges: &[EdgeName],
    counts: &mut [u32],
    fates: &[Fate],
) -> bool
    ensures { IsTrue result → (seen : List AnyFaceNow) → AreGathered vertices.now edges.now shells.now seen counts.old
        → AreGathered vertices.now edges.now shells.now (seen ++ kept_faces fates.now) counts.new }
{
    'fates: for i in 0..fates.len() {
        let fate = item_at(fates, i);
        if !gather_fate(shells, vertices, edges, counts, fate) {
            return false;
        }
    }
    true
}

fn gather_rim(
    shells: &[Shell],
    vertices: &[VertexName],
    edges: &[EdgeName],
    counts: &mut [u32],
    flag: bool,
    rim: &Rim,
) -> bool
    ensures { IsTrue result → (seen : List AnyFaceNow) → AreGathered vertices.now edges.now shells.now seen counts.old
        → AreGathered vertices.now edges.now shells.now (seen ++ face_on flag rim.now ∷ []) counts.new }
{
    let Some(face) = next_face(shells, counts, rim.piece) else {
        return false;
    };
    if !is_rim_face(edges, flag, rim, face) {
        return false;
    }
    count_one(counts, rim.piece)
}

fn gather_rims(
    shells: &[Shell],
    vertices: &[VertexName],
    edges: &[EdgeName],
    counts: &mut [u32],
    flag: bool,
    rims: &[Rim],
) -> bool
    ensures { IsTrue result → (seen : List AnyFaceNow) → AreGathered vertices.now edges.now shells.now seen counts.old
        → AreGathered vertices.now edges.now shells.now (seen ++ map (face_on flag) rims.now) counts.new }
{
    'rims: for i in 0..rims.len() {
        let rim = item_at(rims, i);
        if !gather_rim(shells, vertices, edges, counts, flag, rim) {
            return false;
        }
    }
    true
}

fn has_all(shell: &Shell, flag: bool, count: u32) -> bool
    ensures { IsTrue result → HasAll flag count shell.now }
{
    let same = if flag { shell.flag } else { !shell.flag };
    same && shell.faces.len() == count as usize
}

fn have_all(shells: &[Shell], flag: bool, counts: &[u32]) -> bool
    ensures { IsTrue result → EachAt (λ piece h. HasAll flag (get_or counts.now piece 0) h) shells.now }
{
    'shells: for i in 0..shells.len() {
        let shell = item_at(shells, i);
        if i > u32::MAX as usize {
            return false;
        }
        if !has_all(shell, flag, count_of(counts, i as u32)) {
            return false;
        }
    }
    true
}

fn no_counts(alloc: Global, count: usize) -> Result<Vec<u32>, NoMemory>
    ensures { IfOk result (λ counts. counts.items ≡ replicate count 0) }
{
    let counts = vec![in alloc; 0u32; count]?;
    Ok(counts)
}

/// Whether shells by numbers are the pieces of a changed shell with this flag.
pub(crate) fn are_pieces(
    alloc: Global,
    shells: &[Shell],
    vertices: &[VertexName],
    edges: &[EdgeName],
    flag: bool,
    change: &Change,
) -> Result<bool, NoMemory>
    ensures { IfOk result (λ are. IsTrue are
        → EachAt (λ piece h. IsPiece vertices.now edges.now flag (faces_of flag change.now piece) h) shells.now) }
{
    let mut counts = no_counts(alloc, shells.len())?;
    let counts = counts.as_mut_slice();
    if !gather_fates(shells, vertices, edges, counts, change.faces.as_slice()) {
        return Ok(false);
    }
    if !gather_rims(
        shells,
        vertices,
        edges,
        counts,
        flag,
        change.rims.as_slice(),
    ) {
        return Ok(false);
    }
    Ok(have_all(shells, flag, counts))
}

fn is_within(rim: &Rim, count: usize) -> bool
    ensures { IsTrue result → rim.now.piece < count }
{
    (rim.piece as usize) < count
}

/// Whether each rim is of one of so many pieces.
pub(crate) fn rims_within(rims: &[Rim], count: usize) -> bool
    ensures { IsTrue result → EachAt (λ _ (rim : AnyRim). rim.piece < count) rims.now }
{
    'rims: for i in 0..rims.len() {
        let rim = item_at(rims, i);
        if !is_within(rim, count) {
            return false;
        }
    }
    true
}
