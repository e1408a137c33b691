//! The values of records once unused items are dropped.

ghost use Rattle.brep_lists.specs.Record.{items_of, tuple_due, Fits, IsRecordOf};
ghost use Rattle.brep_lists.specs.declared.entity_kind.EntityKind.TheVariants.{Loop as «loop», EdgeList as edges, VertexList as vertices};
ghost use Rattle.entry_references.specs.EntrySets.{marks_set};
ghost use Rattle.iges_fields.specs.InLine.{is_value};
ghost use Rattle.iges_base.specs.declared.TheConstants.{FILE_LIMIT};
ghost use Rattle.iges_params.specs.Contents.{Contents};
ghost use Rattle.list_compact.specs.Dropped.{edge_index, edge_values, loop_values, reindexed_edge, tuple_index, vertex_index, vertex_values};
ghost use Rattle.list_compact.specs.Marking.{AreTables, IsVertexTable, MarksItems, edge_spelled, int_value};
ghost use Rattle.list_compact.specs.Used.{is_used_edge, is_used_vertex};
ghost use Rattle.std.specs.Prelude.{◌≡◌, ◌+◌, ◌-◌, ◌*◌, ◌<◌, ◌≤◌, ◌^◌, ◌∷◌, ◌++◌, ℕ, [], IfOk, IsTrue, OnOk, drop, if◌then◌else◌, length, take};

use crate::marks::count_marks;
use crate::rank_table::Ranks;
use brep_lists::{EdgeList, EdgeTuple, VertexList};
use brep_loops::{LoopRecord, LoopTuple};
use entry_references::mark_at;
use iges_base::NoMemory;
use iges_fields::{Value, Values};
use iges_params::push_copies;
use std::alloc::Global;

/// The ranks of a file's edges and of its vertices.
#[derive(Drop)]
pub struct FileRanks {
    /// Of the items of edge lists.
    pub edges: Ranks,
    /// Of the items of vertex lists.
    pub vertices: Ranks,
}

// The new index of the edge or the vertex that a tuple names.
fn tuple_index(ranks: &FileRanks, tuple: &LoopTuple<'_>) -> i64
    ensures { (g : Contents) → AreTables g ranks.now.edges ranks.now.vertices
        → result ≡ tuple_index g tuple.now.is_vertex tuple.now.list tuple.now.index }
{
    if tuple.is_vertex() {
        ranks.vertices.index(tuple.list(), tuple.index())
    } else {
        ranks.edges.index(tuple.list(), tuple.index())
    }
}

// The edge with the new indices of its ends, by the ranks of vertices.
fn reindexed(ranks: &Ranks, edge: &EdgeTuple) -> EdgeTuple
    ensures { (g : Contents) → IsVertexTable g ranks.now → result ≡ reindexed_edge g edge.now }
{
    EdgeTuple {
        start_index: ranks.index(edge.start_list, edge.start_index),
        end_index: ranks.index(edge.end_list, edge.end_index),
        ..*edge
    }
}

fn push_int(list: &mut Values, number: i64) -> Result<(), NoMemory>
    ensures { OnOk result (list.new ≡ list.old ++ int_value number ∷ []) }
{
    list.push(Value::Int(number))
}

fn push_edge(list: &mut Values, edge: &EdgeTuple) -> Result<(), NoMemory>
    ensures { OnOk result (list.new ≡ list.old ++ edge_spelled edge.now) }
{
    push_int(list, edge.curve)?;
    push_int(list, edge.start_list)?;
    push_int(list, edge.start_index)?;
    push_int(list, edge.end_list)?;
    push_int(list, edge.end_index)?;
    Ok(())
}

// Puts a tuple of a loop that begins at a place, with its new index, and gives the place after it.
fn push_tuple(
    list: &mut Values,
    alloc: Global,
    values: &Values,
    at: usize,
    tuple: &LoopTuple<'_>,
    index: i64,
) -> Result<usize, NoMemory>
    requires { at + length (tuple_due tuple.now) < 2 ^ 64 }
    ensures list { OnOk result (list.new ≡ list.old ++ take 2 (drop at values.now)
        ++ int_value index ∷ take (2 + 2 * length tuple.now.curves) (drop (at + 3) values.now)) }
    ensures end { IfOk result (λ end. end ≡ at + length (tuple_due tuple.now)) }
{
    let curves = tuple.curve_count();
    push_copies(list, alloc, values, at, 2)?;
    push_int(list, index)?;
    push_copies(list, alloc, values, at + 3, 2 + 2 * curves)?;
    Ok(at + 5 + 2 * curves)
}

/// The values of a loop, with the ranks of what its tuples name.
pub fn loop_values(
    alloc: Global,
    ranks: &FileRanks,
    values: &Values,
    listed: &LoopRecord<'_>,
) -> Result<Values, NoMemory>
    requires short { length values.now ≤ FILE_LIMIT }
    requires is { IsRecordOf «loop» values.now }
    requires read { listed.now ≡ items_of «loop» values.now }
    ensures { (g : Contents) → AreTables g ranks.now.edges ranks.now.vertices
        → IfOk result (λ list. list ≡ loop_values g values.now) }
{
    let mut list = Values::with_room(alloc, values.len())?;
    push_copies(&mut list, alloc, values, 0, 1)?;
    let mut at = 1;
    'tuples: for tuple in listed.tuples() {
        let index = tuple_index(ranks, &tuple);
        at = push_tuple(&mut list, alloc, values, at, &tuple, index)?;
    }
    push_copies(&mut list, alloc, values, at, values.len())?;
    Ok(list)
}

// Puts the five values of an edge with its new indices, where the edge is used.
fn push_used_edge(
    list: &mut Values,
    ranks: &Ranks,
    is_used: bool,
    edge: &EdgeTuple,
) -> Result<(), NoMemory>
    ensures { OnOk result ((g : Contents) → IsVertexTable g ranks.now
        → list.new ≡ list.old ++ (if is_used then edge_spelled (reindexed_edge g edge.now)
        else [])) }
{
    if is_used {
        push_edge(list, &reindexed(ranks, edge))?;
    }
    Ok(())
}

// Puts the three coordinates of a vertex, which begin at a place, where the vertex is used.
fn push_used_vertex(
    list: &mut Values,
    alloc: Global,
    values: &Values,
    is_used: bool,
    from: usize,
) -> Result<(), NoMemory>
    ensures { OnOk result (list.new ≡ list.old
        ++ (if is_used then take 3 (drop from values.now) else [])) }
{
    if is_used {
        push_copies(list, alloc, values, from, 3)?;
    }
    Ok(())
}

// The values of a list of edges, of which this row marks so many.
fn used_edges(
    alloc: Global,
    ranks: &Ranks,
    row: &[bool],
    used: usize,
    values: &Values,
    listed: &EdgeList<'_>,
) -> Result<Values, NoMemory>
    requires short { length values.now ≤ FILE_LIMIT }
    requires is { IsRecordOf edges values.now }
    requires read { listed.now ≡ items_of edges values.now }
    requires size { length row.now ≡ length listed.now }
    requires used { used ≡ marks_set row.now }
    requires some { 0 < used }
    requires few { used ≤ length row.now }
    ensures { (g : Contents) (e : ℕ) → IsVertexTable g ranks.now
        → MarksItems row.now (is_used_edge g e) → IfOk result
        (λ list. list ≡ edge_values g e values.now) }
{
    let mut list = Values::new(alloc);
    push_int(&mut list, used as i64)?;
    let count = listed.len();
    'edges: for i in 0..count {
        let edge = listed.tuple(i).unwrap();
        push_used_edge(&mut list, ranks, mark_at(row, i), &edge)?;
    }
    push_copies(&mut list, alloc, values, 1 + 5 * count, values.len())?;
    Ok(list)
}

/// The values of a list of edges, of which this row marks those that are used.
pub fn edge_values(
    alloc: Global,
    ranks: &Ranks,
    row: &[bool],
    values: Values,
) -> Result<Values, NoMemory>
    requires short { length values ≤ FILE_LIMIT }
    requires is { IsRecordOf edges values }
    requires size { length row.now ≡ length (items_of edges values) }
    ensures { (g : Contents) (e : ℕ) → IsVertexTable g ranks.now
        → MarksItems row.now (is_used_edge g e) → IfOk result
        (λ list. list ≡ edge_values g e values) }
{
    let used = count_marks(row);
    if used == 0 {
        return Ok(values);
    }
    let Some(listed) = EdgeList::of(&values) else {
        return Err(NoMemory);
    };
    used_edges(alloc, ranks, row, used, &values, &listed)
}

// The values of a list of vertices, of which this row marks so many.
fn used_vertices(
    alloc: Global,
    row: &[bool],
    used: usize,
    values: &Values,
    listed: &VertexList<'_>,
) -> Result<Values, NoMemory>
    requires short { length values.now ≤ FILE_LIMIT }
    requires is { IsRecordOf vertices values.now }
    requires read { listed.now ≡ items_of vertices values.now }
    requires size { length row.now ≡ length listed.now }
    requires used { used ≡ marks_set row.now }
    requires some { 0 < used }
    requires few { used ≤ length row.now }
    ensures { (g : Contents) (v : ℕ) → MarksItems row.now (is_used_vertex g v)
        → IfOk result (λ list. list ≡ vertex_values g v values.now) }
{
    let mut list = Values::new(alloc);
    push_int(&mut list, used as i64)?;
    let count = listed.len();
    'vertices: for i in 0..count {
        push_used_vertex(&mut list, alloc, values, mark_at(row, i), 1 + 3 * i)?;
    }
    push_copies(&mut list, alloc, values, 1 + 3 * count, values.len())?;
    Ok(list)
}

/// The values of a list of vertices, of which this row marks those that are used.
pub fn vertex_values(alloc: Global, row: &[bool], values: Values) -> Result<Values, NoMemory>
    requires short { length values ≤ FILE_LIMIT }
    requires is { IsRecordOf vertices values }
    requires size { length row.now ≡ length (items_of vertices values) }
    ensures { (g : Contents) (v : ℕ) → MarksItems row.now (is_used_vertex g v)
        → IfOk result (λ list. list ≡ vertex_values g v values) }
{
    let used = count_marks(row);
    if used == 0 {
        return Ok(values);
    }
    let Some(listed) = VertexList::of(&values) else {
        return Err(NoMemory);
    };
    used_vertices(alloc, row, used, &values, &listed)
}
