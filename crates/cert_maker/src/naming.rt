//! What a rule names where it fails.

ghost use Rattle.std.specs.Prelude.{◌≡◌, Some, slice_get};
ghost use Rattle.solid_data.specs.declared.solid.FaceUse.{FaceUse as AnyFace};
ghost use Rattle.solid_data.specs.declared.verdict.Rule.{Rule as AnyRule};
ghost use Rattle.solid_data.specs.SolidData.{edge_name};
ghost use Rattle.solid_check.specs.Naming.{failing};

use solid_data::{EdgeId, FaceAt, Failing, Rule, Shell, Solid};

/// PAIR names the edge list, and the index of the edge in it, from 1.
pub(crate) fn unpaired(solid: &Solid, edge: EdgeId) -> Failing
    ensures { let key = edge_name (slice_get solid.now.edges edge.0) in result
        ≡ failing Rule.Unpaired key.list.0 key.index }
{
    let key = solid.edge_key(edge);
    Failing {
        rule: Rule::Unpaired,
        entity: key.list,
        place: key.index,
    }
}

/// REACH names the face itself.
pub(crate) fn unreached(shell: &Shell, at: FaceAt) -> Failing
    requires { (f : AnyFace) × (slice_get shell.now.faces at.0 ≡ Some f) }
    ensures { (f : AnyFace) → slice_get shell.now.faces at.0 ≡ Some f
        → result ≡ failing Rule.Unreached f.entity.0 0 }
{
    let face = shell.faces.get(at.0 as usize).unwrap();
    Failing {
        rule: Rule::Unreached,
        entity: face.entity,
        place: 0,
    }
}
