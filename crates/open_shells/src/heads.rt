//! Where the paths of rows round vertices begin.

ghost use Rattle.std.specs.Prelude.{◌≡◌, ◌<◌, Contains, Some, None, length, IfOk, MatchOption};
ghost use Rattle.solid_data.specs.Cells.{with_cell};
ghost use Rattle.edge_uses.specs.RowRelations.{Follows};
ghost use Rattle.open_certificate.specs.Sound.{IsBorder};
ghost use Rattle.open_shells.specs.Mating.{AreOnce};
ghost use Rattle.open_shells.specs.FanParts.{AreHeadCells};

use crate::mated::Mated;
use edge_uses::row_at;
use iges_base::NoMemory;
use solid_data::{Cells, RowId};
use std::alloc::Global;

/// The row that follows a border row; none where the row has a mate.
fn head_after(mated: &Mated<'_>, r: u32) -> Option<u32>
    requires there { r < length mated.now.rows }
    requires whole { AreOnce mated.now }
    ensures none { result ≡ None → ¬ IsBorder mated.now r }
    ensures some { MatchOption result (length mated.now.rows ≡ length mated.now.rows)
        (λ h. IsBorder mated.now r × Follows mated.now r h) }
{
    match mated.mate(r) {
        Some(_) => None,
        None => Some(mated.rows().follows(RowId(r)).unwrap().0),
    }
}

/// Keeps a row at a vertex of the shell, if there is one.
pub(crate) fn note(heads: &mut Cells<'_, Option<u32>>, vertex: u32, head: Option<u32>)
    requires { Contains heads.old.numbers vertex }
    ensures { MatchOption head (heads.new ≡ heads.old)
        (λ h. heads.new ≡ with_cell heads.old vertex (Some h)) }
{
    if let Some(h) = head {
        heads.set(vertex, Some(h));
    }
}

/// For each vertex of a shell the row that starts there and to which no row turns, if there is one: it
/// follows a border row. It takes no longer where the vertices lie far apart.
pub(crate) fn heads_of<'m>(
    alloc: Global,
    mated: &'m Mated<'_>,
) -> Result<Cells<'m, Option<u32>>, NoMemory>
    requires { AreOnce mated.now }
    ensures { IfOk result (AreHeadCells mated.now) }
{
    let rows = mated.rows();
    let mut heads = Cells::new(alloc, rows.vertex_slice(), None)?;
    'rows: for i in 0..rows.len() {
        note(
            &mut heads,
            row_at(rows, i).to.0,
            head_after(mated, i as u32),
        );
    }
    Ok(heads)
}
