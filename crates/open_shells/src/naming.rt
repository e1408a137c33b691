//! What a rule names where it fails.

ghost use Rattle.std.specs.Prelude.{◌≡◌, ℕ, Some, Contains, slice_get};
ghost use Rattle.solid_data.specs.SolidData.{PlacedLoop, placed_loops};
ghost use Rattle.solid_data.specs.declared.solid.FaceUse.{FaceUse as AnyFace};
ghost use Rattle.edge_uses.specs.ShellRows.{ShellRows};
ghost use Rattle.open_certificate.specs.Obligations.{open_failing, edge_obligation, fan_obligation};

use edge_uses::Unjoined;
use open_certificate::{OpenFailing, OpenRule};
use solid_data::{EdgeId, FaceAt, Shell, Solid, VertexId};

/// JOIN names the loop, and its first tuple, from 1, whose use doesn't end where the next one starts.
pub(crate) fn unjoined(shell: &Shell, gap: Unjoined) -> OpenFailing
    requires { (p : PlacedLoop) × Contains (placed_loops shell.now) p × (gap.at ≡ p.at) }
    ensures { (p : PlacedLoop) → Contains (placed_loops shell.now) p → gap.at ≡ p.at
        → result ≡ open_failing OpenRule.Join p.loop.entity gap.place }
{
    let face = shell.faces.get(gap.at.face.0 as usize).unwrap();
    let walk = face.loops.get(gap.at.place as usize).unwrap();
    OpenFailing {
        rule: OpenRule::Join,
        entity: walk.entity,
        place: gap.place,
    }
}

/// EDGE names the edge list, and the index of the edge in it, from 1.
pub(crate) fn not_once(solid: &Solid, edge: EdgeId) -> OpenFailing
    ensures { (d : ShellRows) → result ≡ (edge_obligation solid.now d edge.0).failing }
{
    let key = solid.edge_key(edge);
    OpenFailing {
        rule: OpenRule::Edge,
        entity: key.list,
        place: key.index,
    }
}

/// REACH names the face itself.
pub(crate) fn unreached(shell: &Shell, at: FaceAt) -> OpenFailing
    requires { (f : AnyFace) × (slice_get shell.now.faces at.0 ≡ Some f) }
    ensures { (f : AnyFace) → slice_get shell.now.faces at.0 ≡ Some f
        → result ≡ open_failing OpenRule.Reach f.entity 0 }
{
    let face = shell.faces.get(at.0 as usize).unwrap();
    OpenFailing {
        rule: OpenRule::Reach,
        entity: face.entity,
        place: 0,
    }
}

/// FAN names the vertex list, and the index of the vertex in it, from 1.
pub(crate) fn not_fanned(solid: &Solid, vertex: VertexId) -> OpenFailing
    ensures { (d : ShellRows) → result ≡ (fan_obligation solid.now d vertex.0).failing }
{
    let key = solid.vertex_key(vertex);
    OpenFailing {
        rule: OpenRule::Fan,
        entity: key.list,
        place: key.index,
    }
}
