//! Edges of edge lists.

ghost use Rattle.std.specs.Prelude.{◌≡◌, ◌-◌, ◌≤◌, ◌↔◌, pos, length, slice_get, Some, IfSome, IfNone, IsTrue};
ghost use Rattle.brep_lists.specs.Record.{IsRecordOf, items_of};
ghost use Rattle.brep_lists.specs.declared.entity_kind.EntityKind.TheVariants.{EdgeList as edges};
ghost use Rattle.brep_walk.specs.Places.{HasRecordOf, IsIndex, told, edge_at, edge_places};
ghost use Rattle.record_paths.specs.Searched.{Bears};
ghost use Rattle.solid_data.specs.Obligations.{entry_number};

use crate::naming::names_edge;
use crate::records::record_of;
use brep_lists::{EdgeTuple, count_at, int_at};
use iges_fields::Values;
use iges_params::File;
use solid_data::Failing;

// The edge of an index, from 1, in the record of an edge list. The other edges aren't looked at: a view of the whole
// list for each use of it would take the square of the list's length.
fn edge_of(values: &Values, index: usize) -> Option<EdgeTuple>
    ensures some { IfSome result (λ e. slice_get (items_of edges values.now) (index - 1) ≡ Some e) }
    ensures none { IfNone result (IsRecordOf edges values.now
        → ¬ IsIndex (pos index) (length (items_of edges values.now))) }
{
    let len = values.len();
    if index == 0 || index > count_at(values, 0) {
        return None;
    }
    let at = match index.checked_mul(5) {
        Some(end) if end < len => end - 4,
        _ => return None,
    };
    Some(EdgeTuple {
        curve: int_at(values, at),
        start_list: int_at(values, at + 1),
        start_index: int_at(values, at + 2),
        end_list: int_at(values, at + 3),
        end_index: int_at(values, at + 4),
    })
}

/// Whether an obligation on the curve or the ends of an edge bears the name; None where there is no such edge.
pub fn names_used_edge(file: &File, name: Failing, list: i64, index: i64) -> Option<bool>
    ensures some { IfSome result (λ b. IsTrue b
        ↔ Bears (edge_places file.now list (entry_number index)
        (edge_at file.now list (entry_number index))) name) }
    ensures none { IfNone result (HasRecordOf edges file.now list
        → ¬ IsIndex index (length (told edges file.now list))) }
{
    let Some((no, values)) = record_of(file, list) else {
        return None;
    };
    let Ok(index) = usize::try_from(index) else {
        return None;
    };
    let Some(edge) = edge_of(values, index) else {
        return None;
    };
    Some(names_edge(name, no, index, edge))
}
