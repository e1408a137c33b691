//! How many rows each edge of a shell has, and which.

ghost use Rattle.std.specs.Prelude.{◌≡◌, ◌<◌, Contains, IfOk, MatchOption, if◌then◌else◌, ◌==◌};
ghost use Rattle.std.specs.List.{AllByRecursion};
ghost use Rattle.solid_data.specs.Obligations.{FirstNot};
ghost use Rattle.solid_data.specs.Cells.{cell_of, with_cell};
ghost use Rattle.solid_data.specs.Ranges.{IsWithin, IsSpanOf};
ghost use Rattle.edge_uses.specs.ShellRows.{AreRows};
ghost use Rattle.orient_certificate.specs.Partners.{HasTwoRows};
ghost use Rattle.orient_certificate.specs.RowsByEdge.{once_more, seen_of, AreRowsByEdge};
ghost use Rattle.solid_data.specs.declared.TheConstants.{PART_LIMIT};

use edge_uses::{Row, Rows};
use iges_base::NoMemory;
use solid_data::{Cells, EdgeId, RowId};
use std::alloc::Global;
use std::marker::Model;

/// How many rows an edge has, the first and the last of them, from 0; where there is none, both are 0.
#[derive(Clone, Copy)]
pub struct Seen {
    pub count: u32,
    pub first: u32,
    pub last: u32,
}

const UNSEEN: Seen = Seen {
    count: 0,
    first: 0,
    last: 0,
};

/// What was seen of each edge of a range.
#[derive(Drop)]
pub struct RowsByEdge<'a> {
    cells: Cells<'a, Seen>,
}

impl<'a> Model for RowsByEdge<'a> {
    ghost use Rattle.std.specs.Prelude.{◌≡◌, []};
    ghost use Rattle.orient_certificate.specs.RowsByEdge.{summary, EdgeSights};

    ghost Value = { EdgeSights };

    ghost view = { λ t. record { span = t.cells.span; seen = t.cells.cells } };

    ghost invariant = { λ t. t.cells.blank ≡ summary [] };
}

fn once_more(seen: Seen, r: u32) -> Seen
    requires { seen.count < PART_LIMIT }
    ensures { result ≡ once_more seen r }
{
    Seen {
        count: seen.count + 1,
        first: if seen.count == 0 { r } else { seen.first },
        last: r,
    }
}

fn see(cells: &mut Cells<'_, Seen>, row: Row, r: u32)
    requires known { Contains cells.old.numbers row.edge.0 }
    requires within { IsWithin cells.old.span row.edge.0 }
    requires few { (cell_of cells.old row.edge.0).count < PART_LIMIT }
    ensures { cells.new ≡ with_cell cells.old row.edge.0
        (once_more (cell_of cells.old row.edge.0) r) }
{
    let seen = cells.at(row.edge.0);
    cells.set(row.edge.0, once_more(seen, r));
}

/// The rows of each edge of a shell, in the range of its edges.
pub(crate) fn rows_by_edge_of(alloc: Global, rows: &Rows) -> Result<RowsByEdge<'_>, NoMemory>
    ensures span { IfOk result (λ by_edge. IsSpanOf by_edge.span rows.now.edges) }
    ensures kept { AreRows rows.now }
    ensures by_edge { IfOk result (λ by_edge. AreRowsByEdge rows.now by_edge.span by_edge.seen) }
{
    let mut cells = Cells::new(alloc, rows.edge_slice(), UNSEEN)?;
    'rows: for i in 0..rows.len() {
        see(&mut cells, rows.row(RowId(i as u32)).unwrap(), i as u32);
    }
    Ok(RowsByEdge { cells })
}

impl<'a> RowsByEdge<'a> {
    ghost use Rattle.std.specs.Prelude.{◌≡◌, ◌==◌, if◌then◌else◌};
    ghost use Rattle.solid_data.specs.Ranges.{IsWithin};
    ghost use Rattle.orient_certificate.specs.RowsByEdge.{seen_of};

    /// What was seen of an edge of the range.
    fn of(&self, e: u32) -> Seen
        requires { IsWithin self.now.span e }
        ensures { result ≡ seen_of self.now.span self.now.seen e }
    {
        self.cells.at(e)
    }

    /// The one of the first and the last row of an edge that isn't this one.
    pub(crate) fn other_of(&self, e: u32, r: u32) -> u32
        requires { IsWithin self.now.span e }
        ensures { let seen = seen_of self.now.span self.now.seen e in result
            ≡ (if seen.first == r then seen.last else seen.first) }
    {
        let seen = self.of(e);
        if seen.first == r {
            seen.last
        } else {
            seen.first
        }
    }
}

/// The least edge that hasn't two rows.
pub(crate) fn first_miscounted(rows: &Rows, by_edge: &RowsByEdge<'_>) -> Option<EdgeId>
    requires span { IsSpanOf by_edge.now.span rows.now.edges }
    requires by_edge { AreRowsByEdge rows.now by_edge.now.span by_edge.now.seen }
    ensures { MatchOption result (AllByRecursion (HasTwoRows rows.now) rows.now.edges)
        (λ e. FirstNot (HasTwoRows rows.now) rows.now.edges e.0) }
{
    'edges: for i in 0..rows.edge_count() {
        let edge = rows.edge_at(i).unwrap();
        if by_edge.of(edge.0).count != 2 {
            return Some(edge);
        }
    }
    None
}
