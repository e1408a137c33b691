//! What rows of numbers stand for, item by item.

use crate::numbers::Row;
use iges_base::ItemList;
use shell_change::{
    Change, CurveKnown, EdgeName, EdgeNow, FaceNow, Fate, Geometry, LoopNow, Move, NewEdge,
    NewVertex, Rim, RimEdge, Seam, Told, UseNow, VertexName,
};
use solid_data::{EdgeId, ShellAt, VertexId};
use std::alloc::Global;

/// What a row has items of.
pub trait Item: Drop {
    /// The next item of a row.
    fn read(alloc: Global, row: &mut Row<'_>) -> Self;
}

// The next items of a row, behind their number.
fn list_of<T: Item>(alloc: Global, row: &mut Row<'_>) -> ItemList<T> {
    let count = row.number();
    let mut items = ItemList::new(alloc);
    'items: for _ in 0..count {
        let item = T::read(alloc, row);
        if items.push(item).is_err() {
            // The row isn't whole then.
            row.at = usize::MAX;
            return items;
        }
    }
    items
}

fn vertex_name(row: &mut Row<'_>) -> VertexName {
    if row.flag() {
        return VertexName::New(row.number());
    }
    VertexName::Old(VertexId(row.number()))
}

fn edge_name(row: &mut Row<'_>) -> EdgeName {
    if row.flag() {
        return EdgeName::New(row.number());
    }
    EdgeName::Old(EdgeId(row.number()))
}

impl Item for u32 {
    fn read(_: Global, row: &mut Row<'_>) -> u32 {
        row.number()
    }
}

impl Item for CurveKnown {
    fn read(_: Global, row: &mut Row<'_>) -> CurveKnown {
        CurveKnown {
            record: row.number(),
            line: row.maybe(),
        }
    }
}

impl Item for UseNow {
    fn read(_: Global, row: &mut Row<'_>) -> UseNow {
        if row.flag() {
            return UseNow::AtVertex {
                vertex: vertex_name(row),
                by: row.maybe(),
            };
        }
        UseNow::OnEdge(EdgeNow {
            edge: edge_name(row),
            along: row.flag(),
            turned: row.flag(),
            seam: row.maybe(),
            start_by: row.maybe(),
            end_by: row.maybe(),
        })
    }
}

impl Item for LoopNow {
    fn read(alloc: Global, row: &mut Row<'_>) -> LoopNow {
        LoopNow {
            reversed: row.flag(),
            uses: list_of(alloc, row),
        }
    }
}

impl Item for Fate {
    fn read(alloc: Global, row: &mut Row<'_>) -> Fate {
        if !row.flag() {
            return Fate::Removed;
        }
        Fate::Kept(FaceNow {
            piece: row.number(),
            flag: row.flag(),
            loops: list_of(alloc, row),
        })
    }
}

impl Item for NewVertex {
    fn read(_: Global, row: &mut Row<'_>) -> NewVertex {
        NewVertex {
            like: VertexId(row.number()),
        }
    }
}

impl Item for NewEdge {
    fn read(_: Global, row: &mut Row<'_>) -> NewEdge {
        NewEdge {
            like: EdgeId(row.number()),
            from: vertex_name(row),
            to: vertex_name(row),
            from_by: row.maybe(),
            to_by: row.maybe(),
        }
    }
}

impl Item for Seam {
    fn read(_: Global, row: &mut Row<'_>) -> Seam {
        Seam {
            left: EdgeId(row.number()),
            taken: EdgeId(row.number()),
            told: match row.number() {
                0 => Told::Sure,
                1 => Told::Places,
                _ => Told::Curve,
            },
        }
    }
}

impl Item for Move {
    fn read(_: Global, row: &mut Row<'_>) -> Move {
        Move {
            from: row.number(),
            to: row.number(),
            seam: row.number(),
            at_end: row.flag(),
            back: row.flag(),
            after: row.maybe(),
        }
    }
}

impl Item for RimEdge {
    fn read(_: Global, row: &mut Row<'_>) -> RimEdge {
        RimEdge {
            edge: edge_name(row),
            along: row.flag(),
        }
    }
}

impl Item for Rim {
    fn read(alloc: Global, row: &mut Row<'_>) -> Rim {
        Rim {
            piece: row.number(),
            edges: list_of(alloc, row),
        }
    }
}

impl Item for Change {
    fn read(alloc: Global, row: &mut Row<'_>) -> Change {
        Change {
            shell: ShellAt(row.number()),
            faces: list_of(alloc, row),
            vertices: list_of(alloc, row),
            edges: list_of(alloc, row),
            seams: list_of(alloc, row),
            moves: list_of(alloc, row),
            rims: list_of(alloc, row),
        }
    }
}

impl Item for Geometry {
    fn read(alloc: Global, row: &mut Row<'_>) -> Geometry {
        Geometry {
            places: list_of(alloc, row),
            curves: list_of(alloc, row),
        }
    }
}
