//! The rows of each face.

ghost use Rattle.std.specs.Prelude.{◌≡◌, ◌<◌, length, IfOk};
ghost use Rattle.edge_uses.specs.RowRelations.{OnFace};
ghost use Rattle.shell_tables.specs.FaceRows.{AreFaceRows};

use edge_uses::Rows;
use iges_base::NoMemory;
use solid_data::RowId;
use std::alloc::Global;

/// For each face its first row, and for each row the next row of its face; the number of rows where
/// there is none. Faces and rows count from 0.
#[derive(Drop)]
pub struct FaceRows {
    /// By face.
    pub first: Vec<u32>,
    /// By row.
    pub next: Vec<u32>,
}

/// The face of a row; both count from 0.
pub fn face_of(rows: &Rows, r: u32) -> u32
    requires { r < length rows.now.rows }
    ensures { OnFace rows.now result r }
{
    rows.row(RowId(r)).unwrap().at.face.0
}

/// The rows of each face, by rising number. It errs only where memory runs out.
pub fn face_rows(alloc: Global, rows: &Rows) -> Result<FaceRows, NoMemory>
    ensures { IfOk result (λ t. AreFaceRows rows.now t.first.items t.next.items) }
{
    let count = rows.len();
    let mut first = vec![in alloc; count as u32; rows.face_count()]?;
    let mut next = vec![in alloc; count as u32; count]?;
    'rows: for k in 0..count {
        let r = count - 1 - k;
        let face = face_of(rows, r as u32) as usize;
        next[r] = first[face];
        first[face] = r as u32;
    }
    Ok(FaceRows { first, next })
}
