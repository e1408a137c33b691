//! The pieces of a changed shell, made with numbers of their own. What is made is compared with the change afterwards.

use crate::ends::{NamedEnds, ends_named};
use crate::name_places::places_for;
use crate::names::{EdgeNames, VertexNames, narrow};
use iges_base::{EntryNo, ItemList, NoMemory};
use shell_change::{Change, EdgeName, FaceNow, Fate, LoopNow, Rim, RimEdge, UseNow, VertexName};
use solid_data::{
    Edge, EdgeId, EdgeKey, Edges, FaceUse, Faces, Loop, LoopUse, Loops, Shell, Shells, Solid, Uses,
    VertexId,
};
use std::alloc::Global;

/// Shells with numbers of their own, and what these stand for.
#[derive(Drop)]
pub(crate) struct Made {
    pub shells: Shells,
    pub edges: Edges,
    pub edge_names: EdgeNames,
    pub vertex_names: VertexNames,
}

/// What pieces are made of: a changed shell, and the numbers that were given so far.
#[derive(Drop)]
struct Maker<'a> {
    alloc: Global,
    solid: &'a Solid,
    change: &'a Change,
    edges: Edges,
    edge_names: EdgeNames,
    vertex_names: VertexNames,
}

impl<'a> Maker<'a> {
    ghost use Rattle.std.specs.Prelude.{◌<◌, ◌+◌, ◌^◌};

    fn vertex(&mut self, name: VertexName) -> Result<VertexId, NoMemory> {
        Ok(VertexId(self.vertex_names.number(name)?))
    }

    // Adds an edge with this number.
    fn add_edge(&mut self, number: u32, ends: NamedEnds) -> Result<(), NoMemory>
        requires { number + 1 < 2 ^ 32 }
    {
        let from = self.vertex(ends.from)?;
        let to = self.vertex(ends.to)?;
        let key = EdgeKey {
            list: EntryNo(1),
            index: number + 1,
        };
        self.edges.push(Edge { key, from, to })
    }

    fn edge(&mut self, name: EdgeName) -> Result<EdgeId, NoMemory> {
        let (number, is_new) = self.edge_names.number(name)?;
        if is_new {
            if let Some(ends) = ends_named(self.solid, self.change, name) {
                self.add_edge(number, ends)?;
            }
        }
        Ok(EdgeId(number))
    }

    fn edge_use(&mut self, name: EdgeName, along: bool) -> Result<LoopUse, NoMemory> {
        let edge = self.edge(name)?;
        Ok(LoopUse::EdgeUse { edge, along })
    }

    fn one_use(&mut self, now: UseNow) -> Result<LoopUse, NoMemory> {
        match now {
            UseNow::OnEdge(now) => self.edge_use(now.edge, now.along),
            UseNow::AtVertex { vertex, .. } => {
                let vertex = self.vertex(vertex)?;
                Ok(LoopUse::VertexUse { vertex })
            }
        }
    }

    fn kept_loop(&mut self, now: &LoopNow) -> Result<Loop, NoMemory> {
        let mut uses = Uses::with_room(self.alloc, now.uses.len())?;
        for item in now.uses.as_slice() {
            uses.push(self.one_use(*item)?)?;
        }
        Ok(Loop {
            entity: self.solid.entity(),
            uses,
        })
    }

    fn kept_face(&mut self, now: &FaceNow) -> Result<FaceUse, NoMemory> {
        let mut loops = Loops::with_room(self.alloc, now.loops.len())?;
        for walk in now.loops.as_slice() {
            loops.push(self.kept_loop(walk)?)?;
        }
        Ok(FaceUse {
            entity: self.solid.entity(),
            flag: now.flag,
            loops,
        })
    }

    fn rim_loop(&mut self, edges: &[RimEdge]) -> Result<Loop, NoMemory> {
        let mut uses = Uses::with_room(self.alloc, edges.len())?;
        for item in edges {
            uses.push(self.edge_use(item.edge, item.along)?)?;
        }
        Ok(Loop {
            entity: self.solid.entity(),
            uses,
        })
    }

    fn rim_face(&mut self, flag: bool, rim: &Rim) -> Result<FaceUse, NoMemory> {
        let mut loops = Loops::with_room(self.alloc, 1)?;
        loops.push(self.rim_loop(rim.edges.as_slice())?)?;
        Ok(FaceUse {
            entity: self.solid.entity(),
            flag,
            loops,
        })
    }
}

// The face at a place: of the kept faces' list, or behind it of the rims. None where there is no face.
fn face_at(maker: &mut Maker<'_>, flag: bool, place: usize) -> Result<Option<FaceUse>, NoMemory> {
    let change = maker.change;
    let faces = change.faces.as_slice();
    if place < faces.len() {
        return match &faces[place] {
            Fate::Removed => Ok(None),
            Fate::Kept(face) => Ok(Some(maker.kept_face(face)?)),
        };
    }
    match change.rims.get(place - faces.len()) {
        None => Ok(None),
        Some(rim) => Ok(Some(maker.rim_face(flag, rim)?)),
    }
}

fn push_face(
    maker: &mut Maker<'_>,
    flag: bool,
    place: usize,
    out: &mut Faces,
) -> Result<(), NoMemory> {
    match face_at(maker, flag, place)? {
        None => Ok(()),
        Some(face) => out.push(face),
    }
}

// The piece of the faces at these places.
fn piece(maker: &mut Maker<'_>, flag: bool, places: &[u32]) -> Result<Shell, NoMemory> {
    let mut faces = ItemList::with_room(maker.alloc, places.len())?;
    for place in places {
        push_face(maker, flag, *place as usize, &mut faces)?;
    }
    Ok(Shell {
        entity: maker.solid.entity(),
        flag,
        faces,
    })
}

/// The pieces of which the faces are at these places.
pub(crate) fn make_pieces(
    alloc: Global,
    solid: &Solid,
    change: &Change,
    flag: bool,
    pieces: &[Vec<u32>],
) -> Result<Made, NoMemory> {
    let (edge_places, vertex_places) = places_for(alloc, solid, change)?;
    let mut maker = Maker {
        alloc,
        solid,
        change,
        edges: ItemList::new(alloc),
        edge_names: EdgeNames::new(alloc, edge_places),
        vertex_names: VertexNames::new(alloc, vertex_places),
    };
    let mut shells = ItemList::with_room(alloc, pieces.len())?;
    for places in pieces {
        shells.push(piece(&mut maker, flag, places.as_slice())?)?;
    }
    let Maker {
        edges,
        edge_names,
        vertex_names,
        ..
    } = maker;
    Ok(Made {
        shells,
        edges,
        edge_names,
        vertex_names,
    })
}
