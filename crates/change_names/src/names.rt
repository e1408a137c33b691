//! Whether the old edges and vertices that a change names are the shell's.

ghost use Rattle.std.specs.Prelude.{◌≡◌, ◌↔◌, ◌++◌, IsTrue, Contains, IfOk, flat_map};
ghost use Rattle.shell_change.specs.Matching.{EachAt};
ghost use Rattle.shell_change.specs.declared.change.NewVertex.{NewVertex as AnyNewVertex};
ghost use Rattle.change_names.specs.Names.{loop_after, face_after, uses_after as all_after, UseIsOwn, NewEdgeIsOwn, SeamIsOwn, NamesOwnOf};

use crate::owning::{new_edge_is_own, new_vertex_is_own, seam_is_own, use_is_own};
use edge_uses::Rows;
use iges_base::NoMemory;
use shell_change::{Change, Fate, LoopNow, NewEdge, NewVertex, Seam, UseNow, item_at};
use std::alloc::Global;

fn push_uses(out: &mut Vec<UseNow>, uses: &[UseNow]) -> Result<(), NoMemory>
    ensures { IfOk result (λ _. out.new.items ≡ out.old.items ++ uses.now) }
{
    out.extend_from_slice(uses)?;
    Ok(())
}

fn push_loops(out: &mut Vec<UseNow>, loops: &[LoopNow]) -> Result<(), NoMemory>
    ensures { IfOk result (λ _. out.new.items
        ≡ out.old.items ++ flat_map loop_after loops.now) }
{
    'loops: for i in 0..loops.len() {
        push_uses(out, loops[i].uses.as_slice())?;
    }
    Ok(())
}

fn push_face(out: &mut Vec<UseNow>, fate: &Fate) -> Result<(), NoMemory>
    ensures { IfOk result (λ _. out.new.items ≡ out.old.items ++ face_after fate.now) }
{
    match fate {
        Fate::Removed => Ok(()),
        Fate::Kept(face) => push_loops(out, face.loops.as_slice()),
    }
}

fn loop_uses(loops: &[LoopNow]) -> usize {
    let mut count = 0usize;
    'loops: for i in 0..loops.len() {
        count = count.saturating_add(loops[i].uses.len());
    }
    count
}

// How many uses the faces have that are kept.
fn use_count(fates: &[Fate]) -> usize {
    let mut count = 0usize;
    'faces: for i in 0..fates.len() {
        if let Fate::Kept(face) = &fates[i] {
            count = count.saturating_add(loop_uses(face.loops.as_slice()));
        }
    }
    count
}

/// The uses of all faces that are kept, as they are after a change.
pub fn uses_after(alloc: Global, fates: &[Fate]) -> Result<Vec<UseNow>, NoMemory>
    ensures { IfOk result (λ uses. uses.items ≡ all_after fates.now) }
{
    let mut out = Vec::with_capacity(alloc, use_count(fates))?;
    'faces: for i in 0..fates.len() {
        push_face(&mut out, &fates[i])?;
    }
    Ok(out)
}

fn uses_are_own(rows: &Rows, uses: &[UseNow]) -> bool
    ensures { IsTrue result ↔ EachAt (λ _ u. UseIsOwn rows.now u) uses.now }
{
    'uses: for i in 0..uses.len() {
        let item = item_at(uses, i);
        if !use_is_own(rows, *item) {
            return false;
        }
    }
    true
}

fn edges_are_own(rows: &Rows, edges: &[NewEdge]) -> bool
    ensures { IsTrue result ↔ EachAt (λ _ n. NewEdgeIsOwn rows.now n) edges.now }
{
    'edges: for i in 0..edges.len() {
        let item = item_at(edges, i);
        if !new_edge_is_own(rows, *item) {
            return false;
        }
    }
    true
}

fn vertices_are_own(rows: &Rows, vertices: &[NewVertex]) -> bool
    ensures { IsTrue result ↔ EachAt (λ _ (n : AnyNewVertex). Contains rows.now.vertices n.like.0)
        vertices.now }
{
    'vertices: for i in 0..vertices.len() {
        let item = item_at(vertices, i);
        if !new_vertex_is_own(rows, *item) {
            return false;
        }
    }
    true
}

fn seams_are_own(rows: &Rows, seams: &[Seam]) -> bool
    ensures { IsTrue result ↔ EachAt (λ _ x. SeamIsOwn rows.now x) seams.now }
{
    'seams: for i in 0..seams.len() {
        let item = item_at(seams, i);
        if !seam_is_own(rows, *item) {
            return false;
        }
    }
    true
}

/// Whether each old edge and each old vertex that a change names is one of the shell: of these rows, with these uses of all faces
/// that are kept.
pub fn are_own(rows: &Rows, change: &Change, uses: &[UseNow]) -> bool
    requires { uses.now ≡ all_after change.now.faces }
    ensures { IsTrue result ↔ NamesOwnOf rows.now change.now }
{
    if !uses_are_own(rows, uses) {
        return false;
    }
    let edges = change.edges.as_slice();
    if !edges_are_own(rows, edges) {
        return false;
    }
    let vertices = change.vertices.as_slice();
    if !vertices_are_own(rows, vertices) {
        return false;
    }
    let seams = change.seams.as_slice();
    seams_are_own(rows, seams)
}
