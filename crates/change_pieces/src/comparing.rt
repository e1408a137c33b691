//! Whether faces by numbers are the faces that are named.

ghost use Rattle.std.specs.Prelude.{◌≡◌, ◌<◌, IsTrue, List, Some, slice_get, length};
ghost use Rattle.shell_change.specs.Matching.{Matched};
ghost use Rattle.shell_change.specs.declared.change.RimEdge.{RimEdge as AnyRimEdge};
ghost use Rattle.shell_change.specs.declared.change.VertexName.{VertexName as AnyVertexName};
ghost use Rattle.solid_data.specs.declared.solid.LoopUse.{LoopUse as AnyUse};
ghost use Rattle.change_pieces.specs.Names.{IsUse};
ghost use Rattle.change_pieces.specs.Pieces.{IsLoop, IsFace, face_on, rim_loop, rim_use};

use shell_change::{EdgeName, FaceNow, LoopNow, Rim, RimEdge, UseNow, VertexName, item_at};
use solid_data::{FaceUse, Loop, LoopUse};

fn same_flag(a: bool, b: bool) -> bool
    ensures { IsTrue result → a ≡ b }
{
    if a { b } else { !b }
}

fn same_edge(a: EdgeName, b: EdgeName) -> bool
    ensures { IsTrue result → a ≡ b }
{
    match (a, b) {
        (EdgeName::Old(a), EdgeName::Old(b)) => a.0 == b.0,
        (EdgeName::New(a), EdgeName::New(b)) => a == b,
        _ => false,
    }
}

fn same_vertex(a: VertexName, b: VertexName) -> bool
    ensures { IsTrue result → a ≡ b }
{
    match (a, b) {
        (VertexName::Old(a), VertexName::Old(b)) => a.0 == b.0,
        (VertexName::New(a), VertexName::New(b)) => a == b,
        _ => false,
    }
}

fn is_edge(edges: &[EdgeName], number: u32, name: EdgeName) -> bool
    ensures { IsTrue result → slice_get edges.now number ≡ Some name }
{
    match edges.get(number as usize) {
        None => false,
        Some(own) => same_edge(*own, name),
    }
}

/// Whether a number stands for a vertex.
pub(crate) fn is_vertex(vertices: &[VertexName], number: u32, name: VertexName) -> bool
    ensures { IsTrue result → slice_get vertices.now number ≡ Some name }
{
    match vertices.get(number as usize) {
        None => false,
        Some(own) => same_vertex(*own, name),
    }
}

fn is_use(vertices: &[VertexName], edges: &[EdgeName], now: UseNow, item: LoopUse) -> bool
    ensures { IsTrue result → IsUse vertices.now edges.now now item }
{
    match (now, item) {
        (UseNow::OnEdge(now), LoopUse::EdgeUse { edge, along }) => {
            is_edge(edges, edge.0, now.edge) && same_flag(along, now.along)
        }
        (UseNow::AtVertex { vertex: name, .. }, LoopUse::VertexUse { vertex }) => {
            is_vertex(vertices, vertex.0, name)
        }
        _ => false,
    }
}

fn are_uses(vertices: &[VertexName], edges: &[EdgeName], now: &[UseNow], uses: &[LoopUse]) -> bool
    ensures { IsTrue result → Matched (IsUse vertices.now edges.now) now.now uses.now }
{
    if now.len() != uses.len() {
        return false;
    }
    'uses: for i in 0..uses.len() {
        let named = item_at(now, i);
        let item = item_at(uses, i);
        if !is_use(vertices, edges, *named, *item) {
            return false;
        }
    }
    true
}

fn is_loop(vertices: &[VertexName], edges: &[EdgeName], now: &LoopNow, walk: &Loop) -> bool
    ensures { IsTrue result → IsLoop vertices.now edges.now now.now walk.now }
{
    are_uses(vertices, edges, now.uses.as_slice(), walk.uses.as_slice())
}

fn are_loops(vertices: &[VertexName], edges: &[EdgeName], now: &[LoopNow], loops: &[Loop]) -> bool
    ensures { IsTrue result → Matched (IsLoop vertices.now edges.now) now.now loops.now }
{
    if now.len() != loops.len() {
        return false;
    }
    'loops: for i in 0..loops.len() {
        let named = item_at(now, i);
        let walk = item_at(loops, i);
        if !is_loop(vertices, edges, named, walk) {
            return false;
        }
    }
    true
}

/// Whether a face by numbers is the face that is named.
pub(crate) fn is_face(
    vertices: &[VertexName],
    edges: &[EdgeName],
    now: &FaceNow,
    face: &FaceUse,
) -> bool
    ensures { IsTrue result → IsFace vertices.now edges.now now.now face.now }
{
    if !same_flag(face.flag, now.flag) {
        return false;
    }
    are_loops(vertices, edges, now.loops.as_slice(), face.loops.as_slice())
}

fn is_rim_use(edges: &[EdgeName], now: RimEdge, item: LoopUse) -> bool
    ensures { (vs : List AnyVertexName) → IsTrue result → IsUse vs edges.now (rim_use now) item }
{
    match item {
        LoopUse::EdgeUse { edge, along } => {
            is_edge(edges, edge.0, now.edge) && same_flag(along, now.along)
        }
        LoopUse::VertexUse { .. } => false,
    }
}

fn are_rim_uses(edges: &[EdgeName], now: &[RimEdge], uses: &[LoopUse]) -> bool
    ensures { (vs : List AnyVertexName) → IsTrue result
        → Matched (λ (x : AnyRimEdge) (u : AnyUse). IsUse vs edges.now (rim_use x) u) now.now uses.now }
{
    if now.len() != uses.len() {
        return false;
    }
    'uses: for i in 0..uses.len() {
        let named = item_at(now, i);
        let item = item_at(uses, i);
        if !is_rim_use(edges, *named, *item) {
            return false;
        }
    }
    true
}

fn is_rim_loop(edges: &[EdgeName], rim: &Rim, walk: &Loop) -> bool
    ensures { (vs : List AnyVertexName) → IsTrue result → IsLoop vs edges.now (rim_loop rim.now) walk.now }
{
    are_rim_uses(edges, rim.edges.as_slice(), walk.uses.as_slice())
}

/// Whether a face by numbers is the face on a rim.
pub(crate) fn is_rim_face(edges: &[EdgeName], flag: bool, rim: &Rim, face: &FaceUse) -> bool
    ensures { (vs : List AnyVertexName) → IsTrue result → IsFace vs edges.now (face_on flag rim.now) face.now }
{
    if !same_flag(face.flag, flag) {
        return false;
    }
    let loops = face.loops.as_slice();
    if loops.len() != 1 {
        return false;
    }
    is_rim_loop(edges, rim, item_at(loops, 0))
}
