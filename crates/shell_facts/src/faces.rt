//! The faces at each vertex of a solid.

ghost use Rattle.std.specs.Prelude.{◌≡◌, ◌<◌, ◌≤◌, ◌^◌, ◌++◌, ◌∷◌, [], All, IfOk, Some, get_or, length, map, slice_get};
ghost use Rattle.std.specs.List.Sorted.{IsNonDecreasingBy, IsPartitionPoint};
ghost use Rattle.edge_uses.specs.Before.{face_vertices, faces_vertices};
ghost use Rattle.shell_facts.specs.FaceTable.{at_vertex, face_touches, shell_there, shell_touches, listed_from, touches_of, vertex_of};

use iges_base::{EntryNo, NoMemory};
use shell_components::{Groups, Used, grouped, nothing_used, rise, used_by};
use solid_data::{FaceUse, Shell, ShellAt, Solid, Span, VertexId};
use std::alloc::Global;
use std::marker::Model;

/// A face at a vertex that one of its uses touches, by the number of its shell, from 0.
#[derive(Clone, Copy)]
pub struct FaceAtVertex {
    /// The vertex's number in the solid, from 0.
    pub vertex: u32,
    /// The shell, from 0; the outer one is 0.
    pub shell: u32,
    /// The face's directory number.
    pub face: EntryNo,
}

/// The faces of a solid at each of its vertices.
#[derive(Drop)]
pub struct VertexFaces {
    touches: Vec<FaceAtVertex>,
    by_vertex: Groups,
}

impl Model for VertexFaces {
    ghost use Rattle.std.specs.Prelude.{◌≡◌, List, map};
    ghost use Rattle.shell_facts.specs.FaceTable.{vertex_of};
    ghost use Rattle.shell_facts.specs.declared.faces.FaceAtVertex.{FaceAtVertex as Touch};

    ghost Value = { List Touch };

    ghost view = { λ t. t.touches.items };

    ghost invariant = { λ t. t.by_vertex ≡ map vertex_of t.touches.items };
}

/// The faces at a vertex in the first shells of a solid. It looks into the table of all faces.
#[derive(Drop)]
pub struct FacesUpTo<'a> {
    touches: &'a [FaceAtVertex],
    places: &'a [u32],
}

impl<'a> Model for FacesUpTo<'a> {
    ghost use Rattle.std.specs.Prelude.{◌<◌, ℕ, List, All, length, flat_map};
    ghost use Rattle.iges_base.specs.declared.entry_no.EntryNo.{EntryNo as AnyEntryNo};
    ghost use Rattle.shell_facts.specs.FaceTable.{listed_from};

    ghost Value = { List (ℕ × AnyEntryNo) };

    ghost view = { λ f. flat_map (listed_from f.touches.now) f.places.now };

    ghost invariant = { λ f. All (λ n. n < length f.touches.now) f.places.now };
}

// Appends the face once for each of these vertices.
fn push_at(
    shell: u32,
    face: EntryNo,
    vertices: &[u32],
    out: &mut Vec<FaceAtVertex>,
) -> Result<(), NoMemory>
    ensures { IfOk result (λ _. out.new.items
        ≡ out.old.items ++ map (at_vertex shell face) vertices.now) }
{
    'vertices: for i in 0..vertices.len() {
        let vertex = vertices[i];
        out.push(FaceAtVertex {
            vertex,
            shell,
            face,
        })?;
    }
    Ok(())
}

fn push_face(
    solid: &Solid,
    shell: u32,
    face: &FaceUse,
    used: &mut Used,
    out: &mut Vec<FaceAtVertex>,
) -> Result<(), NoMemory>
    requires { All (λ v. v < length solid.now.vertices) (face_vertices solid.now face.now) }
    ensures { IfOk result (λ _. out.new.items
        ≡ out.old.items ++ face_touches solid.now shell face.now) }
{
    used_by(solid, face, used)?;
    rise(&mut used.vertices);
    push_at(shell, face.entity, used.vertices.as_slice(), out)
}

fn push_shell(
    solid: &Solid,
    number: u32,
    shell: &Shell,
    used: &mut Used,
    out: &mut Vec<FaceAtVertex>,
) -> Result<(), NoMemory>
    requires { All (λ v. v < length solid.now.vertices) (faces_vertices solid.now shell.now) }
    ensures { IfOk result (λ _. out.new.items
        ≡ out.old.items ++ shell_touches solid.now (number, shell.now)) }
{
    let faces = shell.faces.as_slice();
    'faces: for i in 0..faces.len() {
        push_face(solid, number, &faces[i], used, out)?;
    }
    Ok(())
}

fn shell_at(solid: &Solid, k: usize) -> &Shell
    requires shell { k < length solid.now.shells }
    requires few { k < 2 ^ 29 }
    ensures shell { slice_get solid.now.shells k ≡ Some result.now }
    ensures known { All (λ v. v < length solid.now.vertices) (faces_vertices solid.now result.now) }
{
    solid.shell(ShellAt(k as u32)).unwrap()
}

fn all_touches(alloc: Global, solid: &Solid) -> Result<Vec<FaceAtVertex>, NoMemory>
    ensures { IfOk result (λ out. out.items ≡ touches_of solid.now) }
{
    let mut used = nothing_used(alloc);
    let mut out = Vec::new(alloc);
    'shells: for k in 0..solid.shell_count() {
        push_shell(solid, k as u32, shell_at(solid, k), &mut used, &mut out)?;
    }
    Ok(out)
}

fn vertices_of(alloc: Global, touches: &[FaceAtVertex]) -> Result<Vec<u32>, NoMemory>
    ensures { IfOk result (λ out. out.items ≡ map vertex_of touches.now) }
{
    let mut out = Vec::with_capacity(alloc, touches.len())?;
    'touches: for i in 0..touches.len() {
        out.push(touches[i].vertex)?;
    }
    Ok(out)
}

/// The faces of a solid at each of its vertices. It goes once over all uses.
pub fn faces_by_vertex(alloc: Global, solid: &Solid) -> Result<VertexFaces, NoMemory>
    ensures { IfOk result (λ faces. faces ≡ touches_of solid.now) }
{
    solid.recall_numbering();
    let range = Span {
        least: 0,
        count: solid.vertex_count(),
    };
    let touches = all_touches(alloc, solid)?;
    let vertices = vertices_of(alloc, touches.as_slice())?;
    let by_vertex = grouped(alloc, vertices, range)?;
    Ok(VertexFaces { touches, by_vertex })
}

// The shell of the face at a place of the table; 0 past its end.
fn shell_at_place(touches: &[FaceAtVertex], place: u32) -> u32
    ensures { result ≡ shell_there touches.now place }
{
    match touches.get(place as usize) {
        Some(touch) => touch.shell,
        None => 0,
    }
}

// How many of these places have a shell up to `last`: the first ones, where the shells rise along the places.
fn count_up_to(touches: &[FaceAtVertex], places: &[u32], last: u32) -> usize
    ensures within { result ≤ length places.now }
    ensures point { IsNonDecreasingBy (shell_there touches.now) places.now
        → IsPartitionPoint (λ n. shell_there touches.now n ≤ last)
        (λ n. last < shell_there touches.now n) places.now result }
{
    places.partition_point(|place| shell_at_place(touches, *place) <= last)
}

// The face at the i-th of these places, after the number of its shell.
fn face_at(touches: &[FaceAtVertex], places: &[u32], i: usize) -> (u32, EntryNo)
    requires place { i < length places.now }
    requires touch { get_or places.now i 0 < length touches.now }
    ensures { listed_from touches.now (get_or places.now i 0) ≡ result ∷ [] }
{
    let touch = touches[places[i] as usize];
    (touch.shell, touch.face)
}

impl VertexFaces {
    ghost use Rattle.std.specs.Prelude.{◌≡◌, ◌<◌, length};
    ghost use Rattle.solid_data.specs.SolidData.{SolidData};
    ghost use Rattle.shell_facts.specs.FaceTable.{touches_of};
    ghost use Rattle.shell_facts.specs.VertexFaces.{faces_up_to};

    /// The faces at a vertex in a shell and in the shells before it: shell by shell, and in each as listed. Where
    /// they end is found by halving, and none is copied.
    pub fn up_to(&self, shell: ShellAt, vertex: VertexId) -> FacesUpTo<'_>
        ensures { (s : SolidData) → self.now ≡ touches_of s → vertex.0 < length s.vertices
            → result ≡ faces_up_to s shell.0 vertex.0 }
    {
        let touches = self.touches.as_slice();
        let places = self.by_vertex.places(vertex.0);
        let count = count_up_to(touches, places, shell.0);
        FacesUpTo {
            touches,
            places: &places[..count],
        }
    }
}

impl<'a> FacesUpTo<'a> {
    ghost use Rattle.std.specs.Prelude.{◌≡◌, ◌<◌, Some, length, slice_get};

    /// How many faces there are.
    pub fn len(&self) -> usize
        ensures { result ≡ length self.now }
    {
        self.places.len()
    }

    /// The face at a place of this list, from 0, after the number of its shell, from 0.
    pub fn face(&self, i: usize) -> (u32, EntryNo)
        requires { i < length self.now }
        ensures { slice_get self.now i ≡ Some result }
    {
        face_at(self.touches, self.places, i)
    }
}
