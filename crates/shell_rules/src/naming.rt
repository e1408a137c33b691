//! What a rule names where it fails.

ghost use Rattle.std.specs.Prelude.{◌≡◌, Contains, slice_get};
ghost use Rattle.solid_data.specs.SolidData.{PlacedLoop, placed_loops, vertex_name};
ghost use Rattle.shell_rules.specs.Naming.{failing};

use edge_uses::Unjoined;
use solid_data::{Failing, Rule, Shell, Solid, VertexId};

/// JOIN names the loop, and its first tuple, from 1, whose use doesn't end where the next one starts.
pub(crate) fn unjoined(shell: &Shell, gap: Unjoined) -> Failing
    requires { (p : PlacedLoop) × Contains (placed_loops shell.now) p × (gap.at ≡ p.at) }
    ensures { (p : PlacedLoop) → Contains (placed_loops shell.now) p → gap.at ≡ p.at
        → result ≡ failing Rule.Unjoined p.loop.entity.0 gap.place }
{
    let face = shell.faces.get(gap.at.face.0 as usize).unwrap();
    let walk = face.loops.get(gap.at.place as usize).unwrap();
    Failing {
        rule: Rule::Unjoined,
        entity: walk.entity,
        place: gap.place,
    }
}

/// What LINK and APART name of a vertex: the vertex list, and the index of the vertex in it, from 1.
pub fn at_vertex(solid: &Solid, rule: Rule, vertex: VertexId) -> Failing
    ensures { let key = vertex_name (slice_get solid.now.vertices vertex.0) in result
        ≡ failing rule key.list.0 key.index }
{
    let key = solid.vertex_key(vertex);
    Failing {
        rule,
        entity: key.list,
        place: key.index,
    }
}
