//! What becomes of the faces of a shell, one by one.

ghost use Rattle.changed_file.specs.Faces.{loop_number, piece_count, pieces_of, with_count, with_face, with_kept, with_loop, with_loops, with_loops_of, with_removed, with_removed_loops};
ghost use Rattle.changed_file.specs.Folds.{fold_items, fold_pairs};
ghost use Rattle.std.specs.Prelude.{◌≡◌, ◌∷◌, ◌++◌, [], IfOk, OnOk, map, replicate, set, slice_index_or};

use crate::draft::{Slots, put_values};
use changed_records::{ChangeFault, FaceFlag, NewLists, loop_values};
use iges_base::{ItemList, NoMemory};
use iges_params::File;
use shell_change::{Fate, LoopNow};
use solid_data::{FaceUse, Loop, Solid};
use std::alloc::Global;

/// The faces of a piece, with their flags.
pub(crate) type Piece = ItemList<FaceFlag>;

fn with_count(count: usize, fate: &Fate) -> usize
    ensures { result ≡ with_count count fate.now }
{
    match fate {
        Fate::Removed => count,
        Fate::Kept(face) => count.max(face.piece as usize + 1),
    }
}

fn piece_count(fates: &[Fate]) -> usize
    ensures { result ≡ piece_count fates.now }
{
    let mut count = 0;
    'faces: for i in 0..fates.len() {
        count = with_count(count, &fates[i]);
    }
    count
}

fn blank_pieces(alloc: Global, count: usize) -> Result<Vec<Piece>, NoMemory>
    ensures { IfOk result (λ pieces. pieces.items ≡ replicate count []) }
{
    let mut pieces = Vec::new(alloc);
    'pieces: for i in 0..count {
        pieces.push(ItemList::new(alloc))?;
    }
    Ok(pieces)
}

fn put_face(pieces: &mut [Piece], k: usize, face: FaceFlag) -> Result<(), ChangeFault>
    ensures { OnOk result (pieces.new ≡ with_face pieces.old k face) }
{
    if k >= pieces.len() {
        return Err(ChangeFault::Unfit);
    }
    pieces[k].push(face)?;
    Ok(())
}

fn put_kept(pieces: &mut [Piece], fate: &Fate, face: &FaceUse) -> Result<(), ChangeFault>
    ensures { OnOk result (pieces.new ≡ with_kept pieces.old fate.now face.now) }
{
    match fate {
        Fate::Removed => Ok(()),
        Fate::Kept(kept) => {
            let face = FaceFlag {
                number: face.entity.0,
                flag: kept.flag,
            };
            put_face(pieces, kept.piece as usize, face)
        }
    }
}

fn put_all_kept(pieces: &mut [Piece], fates: &[Fate], faces: &[FaceUse]) -> Result<(), ChangeFault>
    ensures { OnOk result (pieces.new ≡ fold_pairs with_kept pieces.old fates.now faces.now) }
{
    if fates.len() != faces.len() {
        return Err(ChangeFault::Unfit);
    }
    'faces: for i in 0..fates.len() {
        put_kept(pieces, &fates[i], &faces[i])?;
    }
    Ok(())
}

/// The pieces of a shell, each with its faces. There are at most as many as faces.
#[tactic(auto, unfolding(crate::specs::Faces::pieces_of))]
pub(crate) fn pieces_of(
    alloc: Global,
    fates: &[Fate],
    faces: &[FaceUse],
) -> Result<Vec<Piece>, ChangeFault>
    ensures { IfOk result (λ pieces. pieces.items ≡ pieces_of fates.now faces.now) }
{
    let count = piece_count(fates);
    if count > fates.len() {
        return Err(ChangeFault::Unfit);
    }
    let mut pieces = blank_pieces(alloc, count)?;
    put_all_kept(pieces.as_mut_slice(), fates, faces)?;
    Ok(pieces)
}

fn put_loop(
    slots: &mut Slots,
    alloc: Global,
    file: &File,
    solid: &Solid,
    lists: NewLists,
    now: &LoopNow,
    old: &Loop,
) -> Result<(), ChangeFault>
    ensures { OnOk result (slots.new
        ≡ with_loop file.now solid.now lists slots.old now.now old.now) }
{
    let Some(values) = file.values(old.entity) else {
        return Err(ChangeFault::Unfit);
    };
    let new = loop_values(alloc, solid, lists, values, now)?;
    put_values(slots, old.entity, new)
}

fn put_loops(
    slots: &mut Slots,
    alloc: Global,
    file: &File,
    solid: &Solid,
    lists: NewLists,
    now: &[LoopNow],
    old: &[Loop],
) -> Result<(), ChangeFault>
    ensures { OnOk result (slots.new
        ≡ fold_pairs (with_loop file.now solid.now lists) slots.old now.now old.now) }
{
    if now.len() != old.len() {
        return Err(ChangeFault::Unfit);
    }
    'loops: for i in 0..now.len() {
        put_loop(slots, alloc, file, solid, lists, &now[i], &old[i])?;
    }
    Ok(())
}

fn put_loops_of(
    slots: &mut Slots,
    alloc: Global,
    file: &File,
    solid: &Solid,
    lists: NewLists,
    fate: &Fate,
    face: &FaceUse,
) -> Result<(), ChangeFault>
    ensures { OnOk result (slots.new
        ≡ with_loops_of file.now solid.now lists slots.old fate.now face.now) }
{
    match fate {
        Fate::Removed => Ok(()),
        Fate::Kept(kept) => {
            let now = kept.loops.as_slice();
            put_loops(slots, alloc, file, solid, lists, now, face.loops.as_slice())
        }
    }
}

/// Gives the loops of kept faces the values that they have after the change.
#[tactic(auto, unfolding(crate::specs::Faces::with_loops))]
pub(crate) fn put_all_loops(
    slots: &mut Slots,
    alloc: Global,
    file: &File,
    solid: &Solid,
    lists: NewLists,
    fates: &[Fate],
    faces: &[FaceUse],
) -> Result<(), ChangeFault>
    ensures { OnOk result (slots.new
        ≡ with_loops file.now solid.now lists slots.old fates.now faces.now) }
{
    if fates.len() != faces.len() {
        return Err(ChangeFault::Unfit);
    }
    'faces: for i in 0..fates.len() {
        put_loops_of(slots, alloc, file, solid, lists, &fates[i], &faces[i])?;
    }
    Ok(())
}

fn put_removed(numbers: &mut ItemList<i64>, fate: &Fate, face: &FaceUse) -> Result<(), NoMemory>
    ensures { OnOk result (numbers.new ≡ with_removed numbers.old fate.now face.now) }
{
    match fate {
        Fate::Removed => numbers.push(i64::from(face.entity.0)),
        Fate::Kept(_) => Ok(()),
    }
}

fn put_loop_numbers(numbers: &mut ItemList<i64>, loops: &[Loop]) -> Result<(), NoMemory>
    ensures { OnOk result (numbers.new ≡ numbers.old ++ map loop_number loops.now) }
{
    'loops: for i in 0..loops.len() {
        numbers.push(i64::from(loops[i].entity.0))?;
    }
    Ok(())
}

fn put_removed_loops(
    numbers: &mut ItemList<i64>,
    fate: &Fate,
    face: &FaceUse,
) -> Result<(), NoMemory>
    ensures { OnOk result (numbers.new ≡ with_removed_loops numbers.old fate.now face.now) }
{
    match fate {
        Fate::Removed => put_loop_numbers(numbers, face.loops.as_slice()),
        Fate::Kept(_) => Ok(()),
    }
}

/// Puts the numbers of removed faces.
pub(crate) fn put_all_removed(
    numbers: &mut ItemList<i64>,
    fates: &[Fate],
    faces: &[FaceUse],
) -> Result<(), ChangeFault>
    ensures { OnOk result (numbers.new ≡ fold_pairs with_removed numbers.old fates.now faces.now) }
{
    if fates.len() != faces.len() {
        return Err(ChangeFault::Unfit);
    }
    'faces: for i in 0..fates.len() {
        put_removed(numbers, &fates[i], &faces[i])?;
    }
    Ok(())
}

/// Puts the numbers of the loops of removed faces.
pub(crate) fn put_all_removed_loops(
    numbers: &mut ItemList<i64>,
    fates: &[Fate],
    faces: &[FaceUse],
) -> Result<(), ChangeFault>
    ensures { OnOk result (numbers.new
        ≡ fold_pairs with_removed_loops numbers.old fates.now faces.now) }
{
    if fates.len() != faces.len() {
        return Err(ChangeFault::Unfit);
    }
    'faces: for i in 0..fates.len() {
        put_removed_loops(numbers, &fates[i], &faces[i])?;
    }
    Ok(())
}
