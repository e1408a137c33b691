//! The bodies that the kept faces of a shell fall into.

ghost use Rattle.std.specs.Prelude.{◌≡◌, ◌≤◌, ◌<◌, ◌++◌, [], All, IfOk, IfSome, IsNone, OnOk, flat_map, map, option_copied, ◌↔◌};
ghost use Rattle.std.specs.List.{enumerate_from};
ghost use Rattle.solid_data.specs.Ranges.{IsWithin};
ghost use Rattle.remedy_text.specs.Bodies.{bodies as are_bodies, body_at, body_if, if_several, kept as are_kept, kept_if, piece_of};
ghost use Rattle.remedy_text.specs.Told.{told_if};

use iges_base::{EntryNo, ItemList, NoMemory};
use shell_change::Fate;
use shell_components::{Groups, grouped};
use solid_data::{FaceUse, Span};
use std::alloc::Global;

/// A face that is kept, and its piece.
#[derive(Clone, Copy)]
pub struct KeptFace {
    pub face: EntryNo,
    pub piece: u32,
}

/// A body: how many faces it has, and the first of them.
#[derive(Clone, Copy)]
pub struct Body {
    pub faces: usize,
    pub first: EntryNo,
}

fn push_kept(
    told: &mut ItemList<KeptFace>,
    face: EntryNo,
    fate: Option<&Fate>,
) -> Result<(), NoMemory>
    ensures { OnOk result (told.new
        ≡ told.old ++ told_if (kept_if face) (option_copied fate.entry)) }
{
    match fate {
        Some(Fate::Kept(now)) => told.push(KeptFace {
            face,
            piece: now.piece,
        }),
        _ => Ok(()),
    }
}

// The faces that are kept.
fn kept(
    alloc: Global,
    faces: &[FaceUse],
    fates: &ItemList<Fate>,
) -> Result<ItemList<KeptFace>, NoMemory>
    ensures { IfOk result (λ told. told ≡ are_kept faces.now fates.now) }
{
    let mut told = ItemList::new(alloc);
    'faces: for i in 0..faces.len() {
        push_kept(&mut told, faces[i].entity, fates.get(i))?;
    }
    Ok(told)
}

fn pieces_of(alloc: Global, kept: &[KeptFace]) -> Result<Vec<u32>, NoMemory>
    ensures { IfOk result (λ pieces. pieces.items ≡ map piece_of kept.now) }
{
    let mut pieces = Vec::new(alloc);
    'faces: for i in 0..kept.len() {
        pieces.push(kept[i].piece)?;
    }
    Ok(pieces)
}

fn greatest_of(numbers: &[u32]) -> Option<u32>
    ensures high { IfSome result (λ m. All (λ n. n ≤ m) numbers.now) }
    ensures none { IsNone result ↔ (numbers.now ≡ []) }
{
    numbers.iter().copied().max()
}

// A range that holds the numbers.
fn range_of(numbers: &[u32]) -> Span
    ensures { All (IsWithin result) numbers.now }
{
    let count = match greatest_of(numbers) {
        None => 0,
        Some(greatest) => greatest as usize + 1,
    };
    Span { least: 0, count }
}

// The places of the faces of each piece.
fn by_piece(alloc: Global, kept: &[KeptFace]) -> Result<Groups, NoMemory>
    ensures { IfOk result (λ groups. groups ≡ map piece_of kept.now) }
{
    let pieces = pieces_of(alloc, kept)?;
    if pieces.len() > u32::MAX as usize {
        return Err(NoMemory);
    }
    let range = range_of(pieces.as_slice());
    grouped(alloc, pieces, range)
}

fn push_body(
    told: &mut ItemList<Body>,
    face: EntryNo,
    i: usize,
    places: &[u32],
) -> Result<(), NoMemory>
    ensures { OnOk result (told.new ≡ told.old ++ body_if face i places.now) }
{
    match places {
        [first, ..] if *first as usize == i => told.push(Body {
            faces: places.len(),
            first: face,
        }),
        _ => Ok(()),
    }
}

fn bodies_of(alloc: Global, kept: &[KeptFace], groups: &Groups) -> Result<ItemList<Body>, NoMemory>
    ensures { IfOk result (λ told. told ≡ flat_map (body_at groups.now) (enumerate_from 0 kept.now)) }
{
    let mut told = ItemList::new(alloc);
    'faces: for i in 0..kept.len() {
        push_body(&mut told, kept[i].face, i, groups.places(kept[i].piece))?;
    }
    Ok(told)
}

fn several(alloc: Global, bodies: ItemList<Body>) -> ItemList<Body>
    ensures { result ≡ if_several bodies }
{
    if bodies.len() > 1 {
        return bodies;
    }
    ItemList::new(alloc)
}

/// The bodies; none where there is one alone.
pub(crate) fn bodies(
    alloc: Global,
    faces: &[FaceUse],
    fates: &ItemList<Fate>,
) -> Result<ItemList<Body>, NoMemory>
    ensures { IfOk result (λ told. told ≡ are_bodies faces.now fates.now) }
{
    let kept = kept(alloc, faces, fates)?;
    let groups = by_piece(alloc, kept.as_slice())?;
    let told = bodies_of(alloc, kept.as_slice(), &groups)?;
    Ok(several(alloc, told))
}
