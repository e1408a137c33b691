//! What a rule names where it fails.

ghost use Rattle.std.specs.Prelude.{◌≡◌, Some, slice_get};
ghost use Rattle.solid_data.specs.declared.solid.FaceUse.{FaceUse as AnyFace};

use orient_certificate::{OrientFailing, OrientRule};
use solid_data::{FaceAt, Shell};

/// REACH names the face itself.
pub(crate) fn unreached(shell: &Shell, face: FaceAt) -> OrientFailing
    requires { (f : AnyFace) × (slice_get shell.now.faces face.0 ≡ Some f) }
    ensures { (f : AnyFace) → slice_get shell.now.faces face.0 ≡ Some f
        → result ≡ record { rule = OrientRule.Reach; entity = f.entity; place = 0 } }
{
    let face = shell.faces.get(face.0 as usize).unwrap();
    OrientFailing {
        rule: OrientRule::Reach,
        entity: face.entity,
        place: 0,
    }
}
