//! The rows of a shell, read loop by loop.

ghost use Rattle.std.specs.Prelude.{◌≡◌, ℕ, ◌+◌, ◌<◌, ◌≤◌, ◌^◌, ◌++◌, ◌∷◌, [], length, map, filter_map, flat_map, slice_get, IfOk, if◌then◌else◌, option_copied, Bool, List};
ghost use Rattle.std.specs.List.{enumerate_from};
ghost use Rattle.std.specs.Option.{option_to_list};
ghost use Rattle.solid_data.specs.Ring.{next_of_each, previous_of_each, numbers_from};
ghost use Rattle.solid_data.specs.SolidData.{placed_in_face, placed_loops, edge_used, vertices_used, ends_of};
ghost use Rattle.solid_data.specs.declared.solid.Loop.{Loop as AnyLoop};
ghost use Rattle.edge_uses.specs.ShellRows.{row_of_edge, row_of, point_of, loop_rows};
ghost use Rattle.edge_uses.specs.Building.{Added, HasRoom, ring_from};
ghost use Rattle.edge_uses.specs.Joining.{IsFewFace, IsFewShell, placed_at};

use crate::row::Row;
use iges_base::NoMemory;
use solid_data::{Edge, EdgeId, FaceAt, FaceUse, Loop, LoopAt, LoopUse, Shell, Solid, same_flags};
use std::alloc::Global;

/// What has been read of a shell, column by column as in `Rows`, but that each edge and each vertex is there once for
/// each use.
#[derive(Drop)]
pub struct Built {
    /// The edge uses, in file order.
    pub rows: Vec<Row>,
    /// For each row the row that follows it in its loop, from 0, backwards where the loop is walked backwards.
    pub next: Vec<u32>,
    /// The loops without an edge, each with the number of its vertex in the solid.
    pub points: Vec<(LoopAt, u32)>,
    /// Numbers of edges of the solid.
    pub edges: Vec<u32>,
    /// Numbers of vertices of the solid.
    pub vertices: Vec<u32>,
}

// The row of an edge use; from and to are exchanged where it runs against the edge.
fn row_at(at: LoopAt, id: EdgeId, along: bool, edge: Option<&Edge>) -> Option<Row>
    ensures { result ≡ row_of_edge at id along (option_copied edge.entry) }
{
    let edge = edge?;
    let (from, to) = if along {
        (edge.from, edge.to)
    } else {
        (edge.to, edge.from)
    };
    Some(Row {
        at,
        edge: id,
        along,
        from,
        to,
    })
}

// None for a vertex use, which is no row.
fn row_for(solid: &Solid, at: LoopAt, forwards: bool, item: LoopUse) -> Option<Row>
    ensures { (l : AnyLoop) → result ≡ row_of solid.now
        (record { at = at; forwards = forwards; loop = l }) item }
{
    match item {
        LoopUse::EdgeUse { edge, along } => {
            row_at(at, edge, same_flags(along, forwards), solid.edge(edge))
        }
        LoopUse::VertexUse { .. } => None,
    }
}

fn push_row(rows: &mut Vec<Row>, row: Option<Row>) -> Result<(), NoMemory>
    ensures { IfOk result (λ _. rows.new.items ≡ rows.old.items ++ option_to_list row) }
{
    if let Some(row) = row {
        rows.push(row)?;
    }
    Ok(())
}

fn push_rows(
    solid: &Solid,
    at: LoopAt,
    forwards: bool,
    walk: &Loop,
    rows: &mut Vec<Row>,
) -> Result<(), NoMemory>
    ensures { IfOk result (λ _. rows.new.items
        ≡ rows.old.items
        ++ loop_rows solid.now (record { at = at; forwards = forwards; loop = walk.now })) }
{
    let uses = walk.uses.as_slice();
    'uses: for i in 0..uses.len() {
        push_row(rows, row_for(solid, at, forwards, uses[i]))?;
    }
    Ok(())
}

// Appends what one use uses: an edge and both its ends, or a vertex.
fn push_used(
    solid: &Solid,
    item: LoopUse,
    edges: &mut Vec<u32>,
    vertices: &mut Vec<u32>,
) -> Result<(), NoMemory>
    ensures edges { IfOk result (λ _. edges.new.items ≡ edges.old.items ++ edge_used item) }
    ensures vertices { IfOk result (λ _. vertices.new.items
        ≡ vertices.old.items ++ vertices_used solid.now item) }
{
    match item {
        LoopUse::EdgeUse { edge, .. } => {
            edges.push(edge.0)?;
            push_ends(solid.edge(edge), vertices)
        }
        LoopUse::VertexUse { vertex } => {
            vertices.push(vertex.0)?;
            Ok(())
        }
    }
}

// Appends the start and the end of an edge, whatever the direction of its use.
fn push_ends(edge: Option<&Edge>, vertices: &mut Vec<u32>) -> Result<(), NoMemory>
    ensures { IfOk result (λ _. vertices.new.items
        ≡ vertices.old.items ++ ends_of (option_copied edge.entry)) }
{
    if let Some(edge) = edge {
        vertices.push(edge.from.0)?;
        vertices.push(edge.to.0)?;
    }
    Ok(())
}

/// Appends what each use of a loop uses, in order: an edge and both its ends, or a vertex.
pub fn push_all_used(
    solid: &Solid,
    walk: &Loop,
    edges: &mut Vec<u32>,
    vertices: &mut Vec<u32>,
) -> Result<(), NoMemory>
    ensures edges { IfOk result (λ _. edges.new.items
        ≡ edges.old.items ++ flat_map edge_used walk.now.uses) }
    ensures vertices { IfOk result (λ _. vertices.new.items
        ≡ vertices.old.items ++ flat_map (vertices_used solid.now) walk.now.uses) }
{
    let uses = walk.uses.as_slice();
    'uses: for i in 0..uses.len() {
        push_used(solid, uses[i], edges, vertices)?;
    }
    Ok(())
}

// Appends so many numbers from the first on.
fn push_numbers(from: u32, count: u32, out: &mut Vec<u32>) -> Result<(), NoMemory>
    requires { from + count < 2 ^ 32 }
    ensures { IfOk result (λ _. out.new.items ≡ out.old.items ++ numbers_from from count) }
{
    'numbers: for i in 0..count {
        out.push(from + i)?;
    }
    Ok(())
}

// Appends the next one of each of so many rows from `base` on; of the last that is the first.
fn push_forwards(base: u32, count: u32, out: &mut Vec<u32>) -> Result<(), NoMemory>
    requires some { 0 < count }
    requires few { base + count < 2 ^ 32 }
    ensures { IfOk result (λ _. out.new.items
        ≡ out.old.items ++ next_of_each (numbers_from base count)) }
{
    push_numbers(base + 1, count - 1, out)?;
    out.push(base)?;
    Ok(())
}

// Appends the one before each of so many rows from `base` on; of the first that is the last.
fn push_backwards(base: u32, count: u32, out: &mut Vec<u32>) -> Result<(), NoMemory>
    requires some { 0 < count }
    requires few { base + count < 2 ^ 32 }
    ensures { IfOk result (λ _. out.new.items
        ≡ out.old.items ++ previous_of_each (numbers_from base count)) }
{
    out.push(base + (count - 1))?;
    push_numbers(base, count - 1, out)
}

// Appends the row that follows each of a loop's rows, which are numbered from `base` on.
fn push_ring(base: u32, count: u32, forwards: bool, out: &mut Vec<u32>) -> Result<(), NoMemory>
    requires { base + count < 2 ^ 32 }
    ensures { IfOk result (λ _. out.new.items ≡ out.old.items ++ ring_from forwards base count) }
{
    if count == 0 {
        return Ok(());
    }
    if forwards {
        push_forwards(base, count, out)
    } else {
        push_backwards(base, count, out)
    }
}

// The vertex of a loop without an edge; None for a loop that has edges.
fn point_at(at: LoopAt, walk: &Loop, count: usize) -> Option<(LoopAt, u32)>
    ensures { (f : Bool) (es : List ℕ) → length es ≡ count
        → option_to_list result
        ≡ point_of (record { at = at; forwards = f; loop = walk.now }) walk.now.uses es }
{
    if count != 0 {
        return None;
    }
    match walk.uses.as_slice().first() {
        Some(LoopUse::VertexUse { vertex }) => Some((at, vertex.0)),
        _ => None,
    }
}

fn push_point(points: &mut Vec<(LoopAt, u32)>, point: Option<(LoopAt, u32)>) -> Result<(), NoMemory>
    ensures { IfOk result (λ _. points.new.items ≡ points.old.items ++ option_to_list point) }
{
    if let Some(point) = point {
        points.push(point)?;
    }
    Ok(())
}

fn face_use_count(face: &FaceUse) -> usize {
    let mut count = 0usize;
    let loops = face.loops.as_slice();
    'loops: for i in 0..loops.len() {
        count = count.saturating_add(loops[i].uses.len());
    }
    count
}

/// How many uses the loops of a shell have, as a hint of the memory to take at once.
pub fn use_count(shell: &Shell) -> usize {
    let mut count = 0usize;
    let faces = shell.faces.as_slice();
    'faces: for i in 0..faces.len() {
        count = count.saturating_add(face_use_count(&faces[i]));
    }
    count
}

impl Built {
    /// Nothing that was read, with memory for so many uses of edges.
    pub fn with_room(alloc: Global, uses: usize) -> Result<Built, NoMemory>
        ensures rows { IfOk result (λ b. b.rows.items ≡ []) }
        ensures next { IfOk result (λ b. b.next.items ≡ []) }
        ensures points { IfOk result (λ b. b.points.items ≡ []) }
        ensures edges { IfOk result (λ b. b.edges.items ≡ []) }
        ensures vertices { IfOk result (λ b. b.vertices.items ≡ []) }
    {
        Ok(Built {
            rows: Vec::with_capacity(alloc, uses)?,
            next: Vec::with_capacity(alloc, uses)?,
            points: Vec::new(alloc),
            edges: Vec::with_capacity(alloc, uses)?,
            vertices: Vec::with_capacity(alloc, uses.saturating_mul(2))?,
        })
    }

    fn add_loop(
        &mut self,
        solid: &Solid,
        at: LoopAt,
        forwards: bool,
        walk: &Loop,
    ) -> Result<(), NoMemory>
        requires { HasRoom self.old (record { at = at; forwards = forwards; loop = walk.now }
            ∷ []) }
        ensures { IfOk result (λ _. Added solid.now self.old self.new
            (record { at = at; forwards = forwards; loop = walk.now } ∷ [])) }
    {
        let base = self.rows.len();
        push_rows(solid, at, forwards, walk, &mut self.rows)?;
        let count = self.rows.len() - base;
        push_ring(base as u32, count as u32, forwards, &mut self.next)?;
        push_point(&mut self.points, point_at(at, walk, count))?;
        push_all_used(solid, walk, &mut self.edges, &mut self.vertices)
    }

    fn add_face(
        &mut self,
        solid: &Solid,
        shell_flag: bool,
        at: FaceAt,
        face: &FaceUse,
    ) -> Result<(), NoMemory>
        requires few { IsFewFace face.now }
        requires room { HasRoom self.old (placed_in_face shell_flag (at.0, face.now)) }
        ensures { IfOk result (λ _. Added solid.now self.old self.new
            (placed_in_face shell_flag (at.0, face.now))) }
    {
        let forwards = same_flags(face.flag, shell_flag);
        let loops = face.loops.as_slice();
        'loops: for i in 0..loops.len() {
            let place = LoopAt {
                face: at,
                place: i as u32,
            };
            self.add_loop(solid, place, forwards, &loops[i])?;
        }
        Ok(())
    }

    /// Reads the uses of a shell. Where memory runs out, a part of them may have been read.
    pub fn add_shell(&mut self, solid: &Solid, shell: &Shell) -> Result<(), NoMemory>
        requires few { IsFewShell shell.now }
        requires room { HasRoom self.old (placed_loops shell.now) }
        ensures { IfOk result (λ _. Added solid.now self.old self.new (placed_loops shell.now)) }
    {
        let faces = shell.faces.as_slice();
        'faces: for i in 0..faces.len() {
            self.add_face(solid, shell.flag, FaceAt(i as u32), &faces[i])?;
        }
        Ok(())
    }
}
