//! What a rule names where it fails.

ghost use Rattle.std.specs.Prelude.{◌≡◌, Some, slice_get};
ghost use Rattle.solid_data.specs.SolidData.{edge_name};

use crate::fault::{OrientFailing, OrientRule};
use solid_data::{EdgeId, Solid};

/// COUNT names the edge list, and the index of the edge in it, from 1.
pub(crate) fn miscounted(solid: &Solid, edge: EdgeId) -> OrientFailing
    ensures { let key = edge_name (slice_get solid.now.edges edge.0) in result
        ≡ record { rule = OrientRule.Count; entity = key.list; place = key.index } }
{
    let key = solid.edge_key(edge);
    OrientFailing {
        rule: OrientRule::Count,
        entity: key.list,
        place: key.index,
    }
}
