//! Whether a solid is closed once all its face flags are read as 1.

ghost use Rattle.std.specs.Prelude.{◌≡◌, ◌↔◌, ◌<◌, ◌++◌, ◌∷◌, [], ◌^◌, IsTrue, Some, length, map, slice_get, IfOk};
ghost use Rattle.solid_data.specs.Numbering.{IsNumberedSolid};
ghost use Rattle.solid_faults.specs.FaceFlags.{flagged_face as face_flagged, flagged_shell as shell_flagged, flagged_solid, IsClosedFlagged};
ghost use Rattle.solid_data.specs.declared.TheConstants.{PART_LIMIT};

use crate::closing::is_closed;
use iges_base::{ItemList, NoMemory};
use solid_data::{
    Edge, EdgeId, Edges, FaceUse, Faces, Loop, LoopUse, Loops, Shell, ShellAt, Shells, Solid, Uses,
    VertexId, VertexKey, Vertices,
};
use std::alloc::Global;

fn copied_uses(alloc: Global, uses: &[LoopUse]) -> Result<Uses, NoMemory>
    ensures { IfOk result (λ copy. copy ≡ uses.now) }
{
    let mut copy = Uses::with_room(alloc, uses.len())?;
    'uses: for i in 0..uses.len() {
        copy.push(uses[i])?;
    }
    Ok(copy)
}

fn copied_loop(alloc: Global, walk: &Loop) -> Result<Loop, NoMemory>
    ensures { IfOk result (λ copy. copy ≡ walk.now) }
{
    let uses = copied_uses(alloc, walk.uses.as_slice())?;
    Ok(Loop {
        entity: walk.entity,
        uses,
    })
}

fn copied_loops(alloc: Global, loops: &[Loop]) -> Result<Loops, NoMemory>
    ensures { IfOk result (λ copy. copy ≡ loops.now) }
{
    let mut copy = Loops::with_room(alloc, loops.len())?;
    'loops: for i in 0..loops.len() {
        copy.push(copied_loop(alloc, &loops[i])?)?;
    }
    Ok(copy)
}

// A copy of a face with the flag 1.
fn flagged_face(alloc: Global, face: &FaceUse) -> Result<FaceUse, NoMemory>
    ensures { IfOk result (λ copy. copy ≡ face_flagged face.now) }
{
    let loops = copied_loops(alloc, face.loops.as_slice())?;
    Ok(FaceUse {
        entity: face.entity,
        flag: true,
        loops,
    })
}

fn flagged_faces(alloc: Global, faces: &[FaceUse]) -> Result<Faces, NoMemory>
    ensures { IfOk result (λ copy. copy ≡ map face_flagged faces.now) }
{
    let mut copy = ItemList::with_room(alloc, faces.len())?;
    'faces: for i in 0..faces.len() {
        copy.push(flagged_face(alloc, &faces[i])?)?;
    }
    Ok(copy)
}

// A copy of a shell in which each face has the flag 1; the shell's own flag stays.
fn flagged_shell(alloc: Global, shell: &Shell) -> Result<Shell, NoMemory>
    ensures { IfOk result (λ copy. copy ≡ shell_flagged shell.now) }
{
    let faces = flagged_faces(alloc, shell.faces.as_slice())?;
    Ok(Shell {
        entity: shell.entity,
        flag: shell.flag,
        faces,
    })
}

fn shell_at(solid: &Solid, k: usize) -> &Shell
    requires shell { k < length solid.now.shells }
    requires few { k < PART_LIMIT }
    ensures { slice_get solid.now.shells k ≡ Some result.now }
{
    solid.shell(ShellAt(k as u32)).unwrap()
}

fn flagged_shells(alloc: Global, solid: &Solid) -> Result<Shells, NoMemory>
    ensures { IfOk result (λ copy. copy ≡ map shell_flagged solid.now.shells) }
{
    let count = solid.shell_count();
    let mut copy = ItemList::with_room(alloc, count)?;
    'shells: for k in 0..count {
        copy.push(flagged_shell(alloc, shell_at(solid, k))?)?;
    }
    Ok(copy)
}

fn edge_at(solid: &Solid, e: usize) -> Edge
    requires edge { e < length solid.now.edges }
    requires few { e < PART_LIMIT }
    ensures { slice_get solid.now.edges e ≡ Some result }
{
    *solid.edge(EdgeId(e as u32)).unwrap()
}

fn copied_edges(alloc: Global, solid: &Solid) -> Result<Edges, NoMemory>
    requires { length solid.now.edges < PART_LIMIT }
    ensures { IfOk result (λ copy. copy ≡ solid.now.edges) }
{
    let mut copy = ItemList::with_room(alloc, solid.edge_count())?;
    'edges: for e in 0..solid.edge_count() {
        copy.push(edge_at(solid, e))?;
    }
    Ok(copy)
}

fn vertex_at(solid: &Solid, v: usize) -> VertexKey
    requires vertex { v < length solid.now.vertices }
    requires few { v < 2 ^ 30 }
    ensures { slice_get solid.now.vertices v ≡ Some result }
{
    solid.vertex(VertexId(v as u32)).unwrap()
}

fn copied_vertices(alloc: Global, solid: &Solid) -> Result<Vertices, NoMemory>
    requires { length solid.now.vertices < 2 ^ 30 }
    ensures { IfOk result (λ copy. copy ≡ solid.now.vertices) }
{
    let mut copy = ItemList::with_room(alloc, solid.vertex_count())?;
    'vertices: for v in 0..solid.vertex_count() {
        copy.push(vertex_at(solid, v))?;
    }
    Ok(copy)
}

// A copy of a solid in which each face has the flag 1.
fn flagged(alloc: Global, solid: &Solid) -> Result<Solid, NoMemory>
    ensures { IfOk result (λ copy. copy ≡ flagged_solid solid.now) }
{
    let entity = solid.entity();
    let shells = flagged_shells(alloc, solid)?;
    let edges = copied_edges(alloc, solid)?;
    let vertices = copied_vertices(alloc, solid)?;
    Ok(Solid::new(entity, shells, edges, vertices))
}

/// Whether a solid is closed where every flag of a face in its shell is read as 1. Where a
/// solid isn't closed and this is true, faces may be turned, or who wrote the file may have let
/// these flags speak of the surface alone. It copies the solid.
pub fn is_closed_flagged(alloc: Global, solid: &Solid) -> Result<bool, NoMemory>
    ensures { IfOk result (λ b. IsTrue b ↔ IsClosedFlagged solid.now) }
{
    let flagged = flagged(alloc, solid)?;
    is_closed(alloc, &flagged)
}
