//! The places of edges and of vertices, found by their numbers.

ghost use Rattle.std.specs.Prelude.{◌≡◌, ◌<◌, ◌+◌, ◌^◌, IfOk};
ghost use Rattle.change_pieces.specs.OneName.{slot_of};

use crate::names::{Name, narrow};
use iges_base::NoMemory;
use indexmap::IndexSet;
use shell_change::{Change, EdgeName, FaceNow, Fate, UseNow, VertexName};
use solid_data::{EdgeId, Solid};
use std::alloc::Global;

const NONE: u32 = u32::MAX;

// What is named is worth so many slots.
const SLOTS_EACH: usize = 8;

/// The places of edges, or of vertices; a slot holds `NONE` where there is none yet.
#[derive(Drop)]
pub(crate) struct Places {
    /// Whether the old ones lie near each other.
    pub is_near: bool,
    /// Then each old one has a slot, from the least on, and behind these each new one.
    pub least: u32,
    /// How many slots there are for old ones.
    pub old: u32,
    pub slots: Vec<u32>,
    /// Else they stand in a set, in their order.
    pub far: IndexSet<Name>,
}

// Where some old numbers lie: from the least on, below another, and how often they are named.
#[derive(Clone, Copy)]
struct Reach {
    least: u32,
    above: u32,
    count: usize,
}

const NO_REACH: Reach = Reach {
    least: NONE,
    above: 0,
    count: 0,
};

const FAR: Reach = Reach {
    least: 0,
    above: NONE,
    count: 0,
};

fn with_number(reach: Reach, n: u32) -> Reach {
    Reach {
        least: reach.least.min(n),
        above: reach.above.max(n.saturating_add(1)),
        count: reach.count.saturating_add(1),
    }
}

fn with_edge(reach: Reach, edge: EdgeName) -> Reach {
    match edge {
        EdgeName::Old(edge) => with_number(reach, edge.0),
        EdgeName::New(_) => reach,
    }
}

fn with_vertex(reach: Reach, vertex: VertexName) -> Reach {
    match vertex {
        VertexName::Old(vertex) => with_number(reach, vertex.0),
        VertexName::New(_) => reach,
    }
}

// The old edges, and the old vertices, that uses name.
#[derive(Clone, Copy)]
struct Named {
    edges: Reach,
    vertices: Reach,
}

fn with_use(named: Named, item: UseNow) -> Named {
    match item {
        UseNow::OnEdge(now) => Named {
            edges: with_edge(named.edges, now.edge),
            ..named
        },
        UseNow::AtVertex { vertex, .. } => Named {
            vertices: with_vertex(named.vertices, vertex),
            ..named
        },
    }
}

fn with_face(named: Named, face: &FaceNow) -> Named {
    let mut named = named;
    'loops: for walk in face.loops.as_slice() {
        'uses: for item in walk.uses.as_slice() {
            named = with_use(named, *item);
        }
    }
    named
}

// Rims name edges that the faces have.
fn named_in(change: &Change) -> Named {
    let mut named = Named {
        edges: NO_REACH,
        vertices: NO_REACH,
    };
    'faces: for fate in change.faces.as_slice() {
        if let Fate::Kept(face) = fate {
            named = with_face(named, face);
        }
    }
    named
}

// With the ends of the old edges that lie there, and of the new ones.
fn with_ends(solid: &Solid, change: &Change, named: Named) -> Reach {
    let mut reach = named.vertices;
    'old: for number in named.edges.least..named.edges.above {
        if let Some(edge) = solid.edge(EdgeId(number)) {
            reach = with_number(with_number(reach, edge.from.0), edge.to.0);
        }
    }
    'new: for edge in change.edges.as_slice() {
        reach = with_vertex(with_vertex(reach, edge.from), edge.to);
    }
    reach
}

// No places yet for so many new ones, and for old ones that lie there.
fn no_places(alloc: Global, reach: Reach, new: usize) -> Result<Places, NoMemory> {
    let old = reach.above.saturating_sub(reach.least);
    let is_near = old as usize / SLOTS_EACH <= reach.count;
    let count = if is_near {
        (old as usize).saturating_add(new)
    } else {
        0
    };
    Ok(Places {
        is_near,
        least: reach.least,
        old,
        slots: vec![in alloc; NONE; count]?,
        far: IndexSet::new(alloc),
    })
}

/// Places for the edges and for the vertices that a change names.
pub(crate) fn places_for(
    alloc: Global,
    solid: &Solid,
    change: &Change,
) -> Result<(Places, Places), NoMemory> {
    let named = named_in(change);
    let edges = no_places(alloc, named.edges, change.edges.len())?;
    let reach = if edges.is_near {
        with_ends(solid, change, named)
    } else {
        FAR
    };
    let vertices = no_places(alloc, reach, change.vertices.len())?;
    Ok((edges, vertices))
}

/// The slot of an edge or of a vertex.
pub(crate) fn slot_of(least: u32, old: u32, name: Name) -> usize
    ensures { result ≡ slot_of least old name }
{
    match name {
        Name::Old(n) => n.saturating_sub(least) as usize,
        Name::New(i) => old as usize + i as usize,
    }
}

impl Places {
    ghost use Rattle.std.specs.Prelude.{◌≡◌, ◌<◌, ◌+◌, ◌^◌, IfOk, IsTrue, Some};
    ghost use Rattle.change_pieces.specs.OneName.{place_by};

    fn near_place(&mut self, name: Name, next: usize) -> Result<(u32, bool), NoMemory>
        ensures { IfOk result (λ r. r.0 + 1 < 2 ^ 32) }
    {
        let slot = slot_of(self.least, self.old, name);
        if slot >= self.slots.len() {
            return Err(NoMemory);
        }
        let place = self.slots[slot];
        if place != NONE {
            return Ok((place, false));
        }
        let place = narrow(next)?;
        self.slots[slot] = place;
        Ok((place, true))
    }

    /// The place of what has a name, and whether it had none before: then it is the next one.
    pub(crate) fn place(&mut self, name: Name, next: usize) -> Result<(u32, bool), NoMemory>
        ensures { IfOk result (λ r. r.0 + 1 < 2 ^ 32) }
    {
        if self.is_near {
            return self.near_place(name, next);
        }
        let (place, is_new) = self.far.insert_full(name)?;
        Ok((narrow(place)?, is_new))
    }

    /// Whether this is the place of a name.
    pub(crate) fn is_place(&self, name: Name, place: usize) -> bool
        ensures { IsTrue result → place_by self.now.is_near self.now.least self.now.old self.now.slots.items self.now.far.keys name ≡ Some place }
    {
        if self.is_near {
            return match self.slots.get(slot_of(self.least, self.old, name)) {
                None => false,
                Some(own) => *own as usize == place,
            };
        }
        match self.far.get_index_of(&name) {
            None => false,
            Some(own) => own == place,
        }
    }
}
