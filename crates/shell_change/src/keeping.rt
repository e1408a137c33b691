//! Whether a change keeps geometry.

ghost use Rattle.std.specs.Prelude.{◌≡◌, ◌↔◌, IsTrue, option_copied};
ghost use Rattle.shell_change.specs.Matching.{EachAt};
ghost use Rattle.shell_change.specs.Moves.{MoveFits};
ghost use Rattle.shell_change.specs.Seams.{SeamFits};
ghost use Rattle.shell_change.specs.UseFits.{NewEdgeFits};
ghost use Rattle.shell_change.specs.Fits.{FacesFit, KeepsGeometry};

use crate::change::{Change, Move, NewEdge, Seam};
use crate::geometry::Geometry;
use crate::loops::{faces_fit, item_at};
use crate::moves::move_fits;
use crate::seams::seam_fits;
use crate::uses::new_edge_fits;
use solid_data::{Shell, Solid};

fn seams_fit(solid: &Solid, geometry: &Geometry, seams: &[Seam]) -> bool
    ensures { IsTrue result ↔ EachAt (λ _ x. SeamFits solid.now geometry.now x) seams.now }
{
    'seams: for i in 0..seams.len() {
        let seam = item_at(seams, i);
        if !seam_fits(solid, geometry, *seam) {
            return false;
        }
    }
    true
}

fn moves_fit(solid: &Solid, geometry: &Geometry, change: &Change, moves: &[Move]) -> bool
    ensures { IsTrue result ↔ EachAt (MoveFits solid.now geometry.now change.now) moves.now }
{
    'moves: for i in 0..moves.len() {
        let item = item_at(moves, i);
        if !move_fits(solid, geometry, change, i, *item) {
            return false;
        }
    }
    true
}

fn new_edges_fit(solid: &Solid, geometry: &Geometry, change: &Change, edges: &[NewEdge]) -> bool
    ensures { IsTrue result ↔ EachAt (λ _ n. NewEdgeFits solid.now geometry.now change.now n)
        edges.now }
{
    'edges: for i in 0..edges.len() {
        let item = item_at(edges, i);
        if !new_edge_fits(solid, geometry, change, *item) {
            return false;
        }
    }
    true
}

fn shell_faces_fit(
    solid: &Solid,
    geometry: &Geometry,
    change: &Change,
    shell: Option<&Shell>,
) -> bool
    ensures { IsTrue result ↔ FacesFit solid.now geometry.now change.now
        (option_copied shell.entry) }
{
    match shell {
        None => false,
        Some(shell) => {
            let faces = shell.faces.as_slice();
            faces_fit(solid, geometry, change, faces, change.faces.as_slice())
        }
    }
}

/// Whether a change keeps geometry: each kept face has its loops, maybe reversed; each of their uses runs where it did, or has
/// moved along seams; and each seam is told as its edges are equal.
pub fn keeps_geometry(solid: &Solid, geometry: &Geometry, change: &Change) -> bool
    ensures { IsTrue result ↔ KeepsGeometry solid.now geometry.now change.now }
{
    let seams = change.seams.as_slice();
    if !seams_fit(solid, geometry, seams) {
        return false;
    }
    let moves = change.moves.as_slice();
    if !moves_fit(solid, geometry, change, moves) {
        return false;
    }
    let edges = change.edges.as_slice();
    if !new_edges_fit(solid, geometry, change, edges) {
        return false;
    }
    let shell = solid.shell(change.shell);
    shell_faces_fit(solid, geometry, change, shell)
}
