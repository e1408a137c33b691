//! Which items of a file's lists are used.

ghost use Rattle.list_compact.specs.Marking.{AreAllMarked, AreMarks, AreRecords, IsOfItsKind, MarksItems, edge_sizes, ends_by, sizes, vertex_sizes};
ghost use Rattle.list_compact.specs.Used.{all_uses, edges_in, has_end, is_used_edge, is_used_vertex, names_edge, names_vertex, tuples_in, used_from, vertices_in};
ghost use Rattle.std.specs.List.{list_any};
ghost use Rattle.std.specs.Prelude.{◌≡◌, ◌∷◌, ◌||◌, ℕ, Bool, [], false, if◌then◌else◌, IfOk, IsTrue, length};

use crate::marks::Marks;
use crate::record_at::record_at;
use brep_lists::{EdgeList, EdgeTuple, EntityKind, VertexList};
use brep_loops::{LoopRecord, LoopTuple};
use entry_references::mark_at;
use iges_base::NoMemory;
use iges_directory::Entry;
use iges_fields::Values;
use iges_params::File;
use std::alloc::Global;

/// Marks of a file's edges and of its vertices.
#[derive(Drop)]
pub struct FileMarks {
    /// Of the items of edge lists; other entries have no marks here.
    pub edges: Marks,
    /// Of the items of vertex lists; other entries have no marks here.
    pub vertices: Marks,
}

impl FileMarks {
    /// Whether each item is marked.
    pub fn are_all(&self) -> bool
        ensures edges { IsTrue result → AreAllMarked self.now.edges }
        ensures vertices { IsTrue result → AreAllMarked self.now.vertices }
    {
        self.edges.are_all() && self.vertices.are_all()
    }
}

// Marks the edge or the vertex that a tuple names.
fn mark_tuple(marks: &mut FileMarks, tuple: &LoopTuple<'_>)
    ensures edges { (used : ℕ → ℕ → Bool) → AreMarks marks.old.edges used
        → AreMarks marks.new.edges (λ e j. used e j || names_edge e j tuple.now) }
    ensures vertices { (used : ℕ → ℕ → Bool) → AreMarks marks.old.vertices used
        → AreMarks marks.new.vertices (λ v j. used v j || names_vertex v j tuple.now) }
    ensures edge_sizes { sizes marks.new.edges ≡ sizes marks.old.edges }
    ensures vertex_sizes { sizes marks.new.vertices ≡ sizes marks.old.vertices }
{
    if tuple.is_vertex() {
        marks.vertices.mark(tuple.list(), tuple.index());
    } else {
        marks.edges.mark(tuple.list(), tuple.index());
    }
}

fn mark_loop(marks: &mut FileMarks, listed: &LoopRecord<'_>)
    ensures edges { (used : ℕ → ℕ → Bool) → AreMarks marks.old.edges used
        → AreMarks marks.new.edges (λ e j. used e j || list_any (names_edge e j) listed.now) }
    ensures vertices { (used : ℕ → ℕ → Bool) → AreMarks marks.old.vertices used
        → AreMarks marks.new.vertices (λ v j. used v j || list_any (names_vertex v j) listed.now) }
    ensures edge_sizes { sizes marks.new.edges ≡ sizes marks.old.edges }
    ensures vertex_sizes { sizes marks.new.vertices ≡ sizes marks.old.vertices }
{
    'tuples: for tuple in listed.tuples() {
        mark_tuple(marks, &tuple);
    }
}

// Marks the start and the end of an edge.
fn mark_ends(vertices: &mut Marks, edge: &EdgeTuple)
    ensures marked { (used : ℕ → ℕ → Bool) → AreMarks vertices.old used
        → AreMarks vertices.new (λ v j. used v j || has_end v j edge.now) }
    ensures sizes { sizes vertices.new ≡ sizes vertices.old }
{
    vertices.mark(edge.start_list, edge.start_index);
    vertices.mark(edge.end_list, edge.end_index);
}

/// How many edges an entry lists; none where it is no list of edges.
pub fn edge_count(entry: &Entry, values: &Values) -> usize
    requires { IsOfItsKind (entry.now, values.now) }
    ensures { result ≡ length (edges_in (entry.now, values.now)) }
{
    if entry.kind != EntityKind::EdgeList.type_number() {
        return 0;
    }
    match EdgeList::of(values) {
        Some(listed) => listed.len(),
        None => 0,
    }
}

/// How many vertices an entry lists; none where it is no list of vertices.
pub fn vertex_count(entry: &Entry, values: &Values) -> usize
    requires { IsOfItsKind (entry.now, values.now) }
    ensures { result ≡ length (vertices_in (entry.now, values.now)) }
{
    if entry.kind != EntityKind::VertexList.type_number() {
        return 0;
    }
    match VertexList::of(values) {
        Some(listed) => listed.len(),
        None => 0,
    }
}

// Rows for a file's lists, in which nothing is marked.
fn unmarked(alloc: Global, file: &File) -> Result<FileMarks, NoMemory>
    requires { AreRecords file.now }
    ensures edges { IfOk result (λ marks. AreMarks marks.edges (λ e j. false)) }
    ensures vertices { IfOk result (λ marks. AreMarks marks.vertices (λ v j. false)) }
    ensures edge_sizes { IfOk result (λ marks. sizes marks.edges ≡ edge_sizes file.now) }
    ensures vertex_sizes { IfOk result (λ marks. sizes marks.vertices ≡ vertex_sizes file.now) }
{
    let mut marks = FileMarks {
        edges: Marks::new(alloc),
        vertices: Marks::new(alloc),
    };
    let count = file.entry_count();
    'entries: for i in 0..count {
        let record = record_at(file, i);
        marks.edges.push(edge_count(record.entry, record.values))?;
        marks
            .vertices
            .push(vertex_count(record.entry, record.values))?;
    }
    Ok(marks)
}

// Marks what an entry uses, where it is a loop.
fn mark_entry(marks: &mut FileMarks, entry: &Entry, values: &Values)
    requires { IsOfItsKind (entry.now, values.now) }
    ensures edges { (used : ℕ → ℕ → Bool) → AreMarks marks.old.edges used
        → AreMarks marks.new.edges (λ e j. used e j
        || list_any (names_edge e j) (tuples_in (entry.now, values.now))) }
    ensures vertices { (used : ℕ → ℕ → Bool) → AreMarks marks.old.vertices used
        → AreMarks marks.new.vertices (λ v j. used v j
        || list_any (names_vertex v j) (tuples_in (entry.now, values.now))) }
    ensures edge_sizes { sizes marks.new.edges ≡ sizes marks.old.edges }
    ensures vertex_sizes { sizes marks.new.vertices ≡ sizes marks.old.vertices }
{
    if entry.kind != EntityKind::Loop.type_number() {
        return;
    }
    let Some(listed) = LoopRecord::of(values) else {
        return;
    };
    mark_loop(marks, &listed);
}

// Marks what the loops of a file use.
fn mark_loops(marks: &mut FileMarks, file: &File)
    requires { AreRecords file.now }
    ensures edges { (used : ℕ → ℕ → Bool) → AreMarks marks.old.edges used
        → AreMarks marks.new.edges (λ e j. used e j
        || list_any (names_edge e j) (all_uses file.now)) }
    ensures vertices { (used : ℕ → ℕ → Bool) → AreMarks marks.old.vertices used
        → AreMarks marks.new.vertices (λ v j. used v j
        || list_any (names_vertex v j) (all_uses file.now)) }
    ensures edge_sizes { sizes marks.new.edges ≡ sizes marks.old.edges }
    ensures vertex_sizes { sizes marks.new.vertices ≡ sizes marks.old.vertices }
{
    let count = file.entry_count();
    'entries: for i in 0..count {
        let record = record_at(file, i);
        mark_entry(marks, record.entry, record.values);
    }
}

// Marks where an edge that is used starts and ends.
fn mark_used_ends(vertices: &mut Marks, is_used: bool, edge: &EdgeTuple)
    ensures marked { (used : ℕ → ℕ → Bool) → AreMarks vertices.old used
        → AreMarks vertices.new (λ v j. used v j
        || list_any (has_end v j) (if is_used then edge.now ∷ [] else [])) }
    ensures sizes { sizes vertices.new ≡ sizes vertices.old }
{
    if is_used {
        mark_ends(vertices, edge);
    }
}

// Marks where the marked edges of a list start and end.
fn mark_list_ends(vertices: &mut Marks, row: &[bool], listed: &EdgeList<'_>)
    requires { length row.now ≡ length listed.now }
    ensures marked { (edge_used : ℕ → Bool) → MarksItems row.now edge_used → (used : ℕ → ℕ → Bool)
        → AreMarks vertices.old used → AreMarks vertices.new
        (λ v j. used v j || list_any (has_end v j) (used_from edge_used 1 listed.now)) }
    ensures sizes { sizes vertices.new ≡ sizes vertices.old }
{
    let count = listed.len();
    'edges: for i in 0..count {
        let edge = listed.tuple(i).unwrap();
        mark_used_ends(vertices, mark_at(row, i), &edge);
    }
}

// Marks where the marked edges of an entry start and end.
fn mark_entry_ends(vertices: &mut Marks, row: &[bool], entry: &Entry, values: &Values)
    requires of_kind { IsOfItsKind (entry.now, values.now) }
    requires size { length row.now ≡ length (edges_in (entry.now, values.now)) }
    ensures marked { (edge_used : ℕ → Bool) → MarksItems row.now edge_used → (used : ℕ → ℕ → Bool)
        → AreMarks vertices.old used → AreMarks vertices.new
        (λ v j. used v j || list_any (has_end v j)
        (used_from edge_used 1 (edges_in (entry.now, values.now)))) }
    ensures sizes { sizes vertices.new ≡ sizes vertices.old }
{
    if entry.kind != EntityKind::EdgeList.type_number() {
        return;
    }
    let Some(listed) = EdgeList::of(values) else {
        return;
    };
    mark_list_ends(vertices, row, &listed);
}

// Marks where the marked edges of a file start and end.
fn mark_all_ends(vertices: &mut Marks, edges: &Marks, file: &File)
    requires records { AreRecords file.now }
    requires sizes { sizes edges.now ≡ edge_sizes file.now }
    ensures marked { (edge_used used : ℕ → ℕ → Bool) → AreMarks edges.now edge_used
        → AreMarks vertices.old used → AreMarks vertices.new
        (λ v j. used v j || list_any (has_end v j) (ends_by edge_used file.now)) }
    ensures sizes { sizes vertices.new ≡ sizes vertices.old }
{
    let count = file.entry_count();
    'entries: for i in 0..count {
        let record = record_at(file, i);
        mark_entry_ends(vertices, edges.row(i), record.entry, record.values);
    }
}

/// Marks of the items of a file's lists that are used: edges that a loop names, and vertices that a loop or such an edge
/// names.
pub fn used_items(alloc: Global, file: &File) -> Result<FileMarks, NoMemory>
    requires { AreRecords file.now }
    ensures edges { IfOk result (λ marks. AreMarks marks.edges (is_used_edge file.now)) }
    ensures vertices { IfOk result (λ marks. AreMarks marks.vertices (is_used_vertex file.now)) }
    ensures edge_sizes { IfOk result (λ marks. sizes marks.edges ≡ edge_sizes file.now) }
    ensures vertex_sizes { IfOk result (λ marks. sizes marks.vertices ≡ vertex_sizes file.now) }
{
    let mut marks = unmarked(alloc, file)?;
    mark_loops(&mut marks, file);
    mark_all_ends(&mut marks.vertices, &marks.edges, file);
    Ok(marks)
}
