//! The file whose lists hold only what is used.

ghost use Rattle.iges_base.specs.declared.TheConstants.{FILE_LIMIT};
ghost use Rattle.iges_params.specs.Contents.{Contents};
ghost use Rattle.list_compact.specs.Dropped.{dropped, dropped_record, dropped_values};
ghost use Rattle.list_compact.specs.Marking.{AreMarks, AreRecords, AreTables, IsOfItsKind, MarksItems, edge_sizes, sizes, vertex_sizes};
ghost use Rattle.list_compact.specs.Used.{edges_in, is_used_edge, is_used_vertex, vertices_in};
ghost use Rattle.std.specs.List.{enumerate_from};
ghost use Rattle.std.specs.Prelude.{◌≡◌, ◌≤◌, ℕ, [], IfOk, OnOk, length, map};

use crate::marking::FileMarks;
use crate::rank_table::ranks_by;
use crate::values::{FileRanks, edge_values, loop_values, vertex_values};
use brep_lists::EntityKind;
use brep_loops::LoopRecord;
use iges_base::NoMemory;
use iges_directory::Entry;
use iges_fields::Values;
use iges_params::File;
use solid_extract::blank;
use std::alloc::Global;

// The values of an entry once unused items are dropped; the rows mark what is used of it, where it is a list. Each record
// fits its kind, so that a view of it errs only where memory runs out.
fn record_values(
    alloc: Global,
    ranks: &FileRanks,
    edge_row: &[bool],
    vertex_row: &[bool],
    entry: &Entry,
    values: Values,
) -> Result<Values, NoMemory>
    requires short { length values ≤ FILE_LIMIT }
    requires of_kind { IsOfItsKind (entry.now, values) }
    requires edge_size { length edge_row.now ≡ length (edges_in (entry.now, values)) }
    requires vertex_size { length vertex_row.now ≡ length (vertices_in (entry.now, values)) }
    ensures { (g : Contents) (e : ℕ) → AreTables g ranks.now.edges ranks.now.vertices
        → MarksItems edge_row.now (is_used_edge g e)
        → MarksItems vertex_row.now (is_used_vertex g e)
        → IfOk result (λ v. v ≡ dropped_values g e (entry.now, values)) }
{
    if entry.kind == EntityKind::Loop.type_number() {
        let Some(listed) = LoopRecord::of(&values) else {
            return Err(NoMemory);
        };
        return loop_values(alloc, ranks, &values, &listed);
    }
    if entry.kind == EntityKind::EdgeList.type_number() {
        return edge_values(alloc, &ranks.vertices, edge_row, values);
    }
    if entry.kind == EntityKind::VertexList.type_number() {
        return vertex_values(alloc, vertex_row, values);
    }
    Ok(values)
}

// Puts the entries into the new file, with the values that they have once unused items are dropped.
fn put_dropped(
    alloc: Global,
    new: &mut File,
    file: &mut File,
    marks: &FileMarks,
) -> Result<(), NoMemory>
    requires records { AreRecords file.old }
    requires edges { AreMarks marks.now.edges (is_used_edge file.old) }
    requires vertices { AreMarks marks.now.vertices (is_used_vertex file.old) }
    requires edge_sizes { sizes marks.now.edges ≡ edge_sizes file.old }
    requires vertex_sizes { sizes marks.now.vertices ≡ vertex_sizes file.old }
    requires blank { new.old.entries ≡ [] }
    ensures start { OnOk result (file.new.start ≡ file.old.start) }
    ensures global { OnOk result (file.new.global ≡ file.old.global) }
    ensures entries { OnOk result (new.new.entries
        ≡ map (dropped_record file.old) (enumerate_from 0 file.old.entries)) }
{
    let count = file.entry_count();
    let ranks = FileRanks {
        edges: ranks_by(alloc, &marks.edges)?,
        vertices: ranks_by(alloc, &marks.vertices)?,
    };
    'entries: for i in 0..count {
        let entry = *file.entry_at(i).unwrap();
        let taken = file.take_values(alloc, i);
        let edges = marks.edges.row(i);
        let vertices = marks.vertices.row(i);
        let values = record_values(alloc, &ranks, edges, vertices, &entry, taken)?;
        new.push(entry, values)?;
    }
    Ok(())
}

// The file of the entries with what is used, which lacks the front of the other.
fn dropped_entries(alloc: Global, file: &mut File, marks: &FileMarks) -> Result<File, NoMemory>
    requires records { AreRecords file.old }
    requires edges { AreMarks marks.now.edges (is_used_edge file.old) }
    requires vertices { AreMarks marks.now.vertices (is_used_vertex file.old) }
    requires edge_sizes { sizes marks.now.edges ≡ edge_sizes file.old }
    requires vertex_sizes { sizes marks.now.vertices ≡ vertex_sizes file.old }
    ensures start { OnOk result (file.new.start ≡ file.old.start) }
    ensures global { OnOk result (file.new.global ≡ file.old.global) }
    ensures entries { IfOk result (λ new. new.entries
        ≡ map (dropped_record file.old) (enumerate_from 0 file.old.entries)) }
{
    let mut new = blank(alloc, file.global().delims)?;
    match put_dropped(alloc, &mut new, file, marks) {
        Ok(()) => Ok(new),
        Err(fault) => {
            drop(new);
            Err(fault)
        }
    }
}

/// The file whose lists of edges and of vertices hold only what is used, in order, with indices to match; a list of which
/// nothing is used stays whole. The values of all other records are moved. The marks are those of its used items.
pub fn dropped(alloc: Global, mut file: File, marks: &FileMarks) -> Result<File, NoMemory>
    requires records { AreRecords file }
    requires edges { AreMarks marks.now.edges (is_used_edge file) }
    requires vertices { AreMarks marks.now.vertices (is_used_vertex file) }
    requires edge_sizes { sizes marks.now.edges ≡ edge_sizes file }
    requires vertex_sizes { sizes marks.now.vertices ≡ vertex_sizes file }
    ensures { IfOk result (λ new. new ≡ dropped file) }
{
    match dropped_entries(alloc, &mut file, marks) {
        Ok(mut new) => {
            new.take_front(file);
            Ok(new)
        }
        Err(fault) => {
            drop(file);
            Err(fault)
        }
    }
}
