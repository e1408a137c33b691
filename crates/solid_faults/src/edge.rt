//! The edges of a shell that aren't paired.

ghost use Rattle.std.specs.Prelude.{◌≡◌, ◌<◌, ◌++◌, ◌+◌, ◌≤◌, Some, length, slice_get, IfOk, map};
ghost use Rattle.std.specs.List.{AllByRecursion, enumerate_from};
ghost use Rattle.solid_data.specs.Ranges.{IsWithin};
ghost use Rattle.edge_uses.specs.Tally.{seen_of, IsTally};
ghost use Rattle.solid_faults.specs.Edges.{unpaired_at, unpaired_of, rows_on_edge, row_on};
ghost use Rattle.solid_data.specs.declared.TheConstants.{PART_LIMIT};

use edge_uses::{Row, Rows, row_at, tally_of};
use iges_base::NoMemory;
use solid_data::EdgeId;
use std::alloc::Global;

/// An edge that hasn't exactly one row along it and one against it, and how many rows run along it
/// and against it.
#[derive(Clone, Copy)]
pub struct Unpaired {
    pub edge: EdgeId,
    pub along: u32,
    pub against: u32,
}

fn push_unpaired(
    out: &mut Vec<Unpaired>,
    edge: EdgeId,
    along: u32,
    against: u32,
) -> Result<(), NoMemory>
    ensures { IfOk result (λ _. out.new.items ≡ out.old.items ++ unpaired_at edge.0 along against) }
{
    if along != 1 || against != 1 {
        out.push(Unpaired {
            edge,
            along,
            against,
        })?;
    }
    Ok(())
}

fn edge_at(rows: &Rows, i: usize) -> EdgeId
    requires { i < length rows.now.edges }
    ensures { slice_get rows.now.edges i ≡ Some result.0 }
{
    rows.edge_at(i).unwrap()
}

/// The edges of a shell that haven't exactly one row along them and one against them, by rising
/// number.
pub(crate) fn unpaired_edges(alloc: Global, rows: &Rows) -> Result<Vec<Unpaired>, NoMemory>
    ensures { IfOk result (λ out. out.items ≡ unpaired_of rows.now) }
{
    let tally = tally_of(alloc, rows)?;
    let mut out = Vec::new(alloc);
    'edges: for i in 0..rows.edge_count() {
        let edge = edge_at(rows, i);
        let seen = tally.of(edge.0);
        push_unpaired(&mut out, edge, seen.along, seen.against)?;
    }
    Ok(out)
}

fn push_if(out: &mut Vec<u32>, row: Row, i: u32, edge: EdgeId) -> Result<(), NoMemory>
    ensures { IfOk result (λ _. out.new.items ≡ out.old.items ++ row_on edge.0 (i, row)) }
{
    if row.edge.0 == edge.0 {
        out.push(i)?;
    }
    Ok(())
}

/// The numbers of the rows that have an edge, in file order. It goes once over the rows.
pub fn rows_of_edge(alloc: Global, rows: &Rows, edge: EdgeId) -> Result<Vec<u32>, NoMemory>
    ensures { IfOk result (λ out. out.items ≡ rows_on_edge rows.now edge.0) }
{
    let mut out = Vec::new(alloc);
    'rows: for i in 0..rows.len() {
        push_if(&mut out, row_at(rows, i), i as u32, edge)?;
    }
    Ok(out)
}
