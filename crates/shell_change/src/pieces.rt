//! The pieces of a change, by the order of their first faces.

ghost use Rattle.std.specs.Prelude.{◌≡◌, ◌↔◌, ◌<◌, ◌+◌, ◌^◌, IsTrue};
ghost use Rattle.shell_change.specs.Pieces.{PiecesInOrder, piece_of as piece_of_fate, begun_with as begun_with_piece};

use crate::change::Fate;
use crate::loops::item_at;

fn piece_of(fate: &Fate) -> Option<u32>
    ensures { result ≡ piece_of_fate fate.now }
{
    match fate {
        Fate::Removed => None,
        Fate::Kept(face) => Some(face.piece),
    }
}

// How many pieces have begun with a face of this piece, if so many had before.
fn begun_with(piece: Option<u32>, begun: usize) -> Option<usize>
    requires { begun + 1 < 2 ^ 64 }
    ensures { result ≡ begun_with_piece piece begun }
{
    let Some(piece) = piece else {
        return Some(begun);
    };
    let piece = piece as usize;
    if begun < piece {
        return None;
    }
    if piece == begun {
        return Some(begun + 1);
    }
    Some(begun)
}

/// Whether the pieces are numbered in the order of their first faces.
pub fn pieces_in_order(fates: &[Fate]) -> bool
    ensures { IsTrue result ↔ PiecesInOrder fates.now }
{
    let mut begun = 0usize;
    'faces: for i in 0..fates.len() {
        let fate = item_at(fates, i);
        match begun_with(piece_of(fate), begun) {
            None => return false,
            Some(count) => begun = count,
        }
    }
    true
}
