//! Where edges lie: their curves, and the places of their ends.

ghost use Rattle.std.specs.Prelude.{◌≡◌, option_copied, slice_get};
ghost use Rattle.shell_change.specs.Tracks.{place_named, place_of_new, track_between, old_track, track_of_old, track_of_new, named_track, track_run, track_end as end_of_track, known_end as known_end_of};

use crate::change::{Change, EdgeName, NewEdge, NewVertex, VertexName};
use crate::geometry::{CurveKnown, Geometry};
use solid_data::{Edge, EdgeId, Solid, VertexId};

/// Where an edge lies, or a use of it in its direction.
#[derive(Clone, Copy)]
pub struct Track {
    /// The old edge whose curve it has.
    pub curve: EdgeId,
    /// The place where it starts.
    pub from: u32,
    /// The place where it ends.
    pub to: u32,
}

/// The place of an old vertex.
pub fn old_place(geometry: &Geometry, vertex: VertexId) -> Option<u32>
    ensures { result ≡ slice_get geometry.now.places vertex.0 }
{
    geometry.places.get(vertex.0 as usize).copied()
}

fn new_vertex_place(geometry: &Geometry, vertex: Option<&NewVertex>) -> Option<u32>
    ensures { result ≡ place_of_new geometry.now (option_copied vertex.entry) }
{
    old_place(geometry, vertex?.like)
}

/// The place of a vertex that a changed shell names.
pub fn place(geometry: &Geometry, change: &Change, vertex: VertexName) -> Option<u32>
    ensures { result ≡ place_named geometry.now change.now vertex }
{
    match vertex {
        VertexName::Old(old) => old_place(geometry, old),
        VertexName::New(i) => new_vertex_place(geometry, change.vertices.get(i as usize)),
    }
}

fn between(curve: EdgeId, from: Option<u32>, to: Option<u32>) -> Option<Track>
    ensures { result ≡ track_between curve from to }
{
    Some(Track {
        curve,
        from: from?,
        to: to?,
    })
}

fn old_edge_track(geometry: &Geometry, id: EdgeId, edge: Option<&Edge>) -> Option<Track>
    ensures { result ≡ track_of_old geometry.now id (option_copied edge.entry) }
{
    let edge = edge?;
    between(
        id,
        old_place(geometry, edge.from),
        old_place(geometry, edge.to),
    )
}

/// Where an old edge lies.
pub fn track_of(solid: &Solid, geometry: &Geometry, edge: EdgeId) -> Option<Track>
    ensures { result ≡ old_track solid.now geometry.now edge }
{
    old_edge_track(geometry, edge, solid.edge(edge))
}

fn new_edge_track(geometry: &Geometry, change: &Change, edge: Option<&NewEdge>) -> Option<Track>
    ensures { result ≡ track_of_new geometry.now change.now (option_copied edge.entry) }
{
    let edge = edge?;
    between(
        edge.like,
        place(geometry, change, edge.from),
        place(geometry, change, edge.to),
    )
}

/// Where an edge lies that a changed shell names.
pub fn edge_track(
    solid: &Solid,
    geometry: &Geometry,
    change: &Change,
    edge: EdgeName,
) -> Option<Track>
    ensures { result ≡ named_track solid.now geometry.now change.now edge }
{
    match edge {
        EdgeName::Old(old) => track_of(solid, geometry, old),
        EdgeName::New(i) => new_edge_track(geometry, change, change.edges.get(i as usize)),
    }
}

/// How a use runs that runs along an edge or against it.
pub fn run(track: Track, along: bool) -> Track
    ensures { result ≡ track_run track along }
{
    if along {
        return track;
    }
    Track {
        curve: track.curve,
        from: track.to,
        to: track.from,
    }
}

/// What is known of the curve of an old edge.
pub fn curve_of(geometry: &Geometry, edge: EdgeId) -> Option<CurveKnown>
    ensures { result ≡ slice_get geometry.now.curves edge.0 }
{
    geometry.curves.get(edge.0 as usize).copied()
}

/// The place where a track ends, or where it starts.
pub fn track_end(track: Track, at_end: bool) -> u32
    ensures { result ≡ end_of_track track at_end }
{
    if at_end { track.to } else { track.from }
}

/// The same of an edge that may not be there.
pub fn known_end(track: Option<Track>, at_end: bool) -> Option<u32>
    ensures { result ≡ known_end_of track at_end }
{
    Some(track_end(track?, at_end))
}
