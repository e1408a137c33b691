//! The own values of a record of a solid.

ghost use Rattle.brep_lists.specs.Record.{tuple_due};
ghost use Rattle.brep_lists.specs.declared.entity_kind.EntityKind.TheVariants.{Solid as solid, Shell as shell, Face as face, Loop as «loop», EdgeList as edges, VertexList as vertices};
ghost use Rattle.entry_references.specs.PlacesDue.{places_due};
ghost use Rattle.entry_references.specs.Refs.{own_of_kind};
ghost use Rattle.iges_base.specs.declared.TheConstants.{FILE_LIMIT};
ghost use Rattle.std.specs.Prelude.{◌≡◌, ◌+◌, ◌*◌, ◌<◌, ◌≤◌, ◌^◌, ◌++◌, [], IfOk, OnOk, length, flat_map};

use crate::group_places::{push_groups, push_tuples};
use crate::own::{Own, places};
use brep_lists::{EdgeList, EntityKind, VertexList};
use brep_loops::{FaceRecord, LoopRecord, ShellRecord, SolidRecord};
use iges_base::{ItemList, NoMemory};
use iges_fields::Values;
use std::alloc::Global;

fn of_solid(alloc: Global, spare: ItemList<usize>, values: &Values) -> Result<Option<Own>, NoMemory>
    requires few { length values.now ≤ FILE_LIMIT }
    requires empty { spare ≡ [] }
    ensures { IfOk result (λ own. own ≡ own_of_kind solid values.now) }
{
    let Some(record) = SolidRecord::of(values) else {
        return Ok(None);
    };
    let voids = record.len() - 1;
    let mut pointers = places(spare, &[1])?;
    push_groups(&mut pointers, 4, voids, 2, &[0])?;
    Ok(Some(Own::with_pointers(alloc, 3 + voids * 2, pointers)))
}

fn of_shell(alloc: Global, spare: ItemList<usize>, values: &Values) -> Result<Option<Own>, NoMemory>
    requires few { length values.now ≤ FILE_LIMIT }
    requires empty { spare ≡ [] }
    ensures { IfOk result (λ own. own ≡ own_of_kind shell values.now) }
{
    let Some(record) = ShellRecord::of(values) else {
        return Ok(None);
    };
    let faces = record.len();
    let mut pointers = spare;
    push_groups(&mut pointers, 2, faces, 2, &[0])?;
    Ok(Some(Own::with_pointers(alloc, 1 + faces * 2, pointers)))
}

fn of_face(alloc: Global, spare: ItemList<usize>, values: &Values) -> Result<Option<Own>, NoMemory>
    requires few { length values.now ≤ FILE_LIMIT }
    requires empty { spare ≡ [] }
    ensures { IfOk result (λ own. own ≡ own_of_kind face values.now) }
{
    let Some(record) = FaceRecord::of(values) else {
        return Ok(None);
    };
    let loops = record.len();
    let mut pointers = places(spare, &[1])?;
    push_groups(&mut pointers, 4, loops, 1, &[0])?;
    Ok(Some(Own::with_pointers(alloc, 3 + loops, pointers)))
}

fn of_loop(alloc: Global, spare: ItemList<usize>, values: &Values) -> Result<Option<Own>, NoMemory>
    requires few { length values.now ≤ FILE_LIMIT }
    requires empty { spare ≡ [] }
    ensures { IfOk result (λ own. own ≡ own_of_kind «loop» values.now) }
{
    let Some(record) = LoopRecord::of(values) else {
        return Ok(None);
    };
    let mut pointers = spare;
    let end = push_tuples(&mut pointers, 2, &record)?;
    Ok(Some(Own::with_pointers(alloc, end - 1, pointers)))
}

fn of_edge_list(
    alloc: Global,
    spare: ItemList<usize>,
    values: &Values,
) -> Result<Option<Own>, NoMemory>
    requires few { length values.now ≤ FILE_LIMIT }
    requires empty { spare ≡ [] }
    ensures { IfOk result (λ own. own ≡ own_of_kind edges values.now) }
{
    let Some(list) = EdgeList::of(values) else {
        return Ok(None);
    };
    let count = list.len();
    let mut pointers = spare;
    push_groups(&mut pointers, 2, count, 5, &[0, 1, 3])?;
    Ok(Some(Own::with_pointers(alloc, 1 + count * 5, pointers)))
}

fn of_vertex_list(alloc: Global, spare: ItemList<usize>, values: &Values) -> Option<Own>
    requires few { length values.now ≤ FILE_LIMIT }
    requires empty { spare ≡ [] }
    ensures { result ≡ own_of_kind vertices values.now }
{
    let Some(list) = VertexList::of(values) else {
        return None;
    };
    Some(Own::plain(alloc, 1 + list.len() * 3, spare))
}

/// The own values of a record of a kind; None where the record doesn't fit it (IGES 5.3, 4.49 and 4.145 to 4.149). The places
/// are put into the empty list.
pub fn own_of_kind(
    alloc: Global,
    spare: ItemList<usize>,
    kind: EntityKind,
    values: &Values,
) -> Result<Option<Own>, NoMemory>
    requires few { length values.now ≤ FILE_LIMIT }
    requires empty { spare ≡ [] }
    ensures { IfOk result (λ own. own ≡ own_of_kind kind values.now) }
{
    match kind {
        EntityKind::Solid => of_solid(alloc, spare, values),
        EntityKind::Shell => of_shell(alloc, spare, values),
        EntityKind::Face => of_face(alloc, spare, values),
        EntityKind::Loop => of_loop(alloc, spare, values),
        EntityKind::EdgeList => of_edge_list(alloc, spare, values),
        EntityKind::VertexList => Ok(of_vertex_list(alloc, spare, values)),
    }
}
