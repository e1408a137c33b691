//! How often each edge of a shell is run along and against.

ghost use Rattle.std.specs.Prelude.{◌≡◌, ◌<◌, Contains, IfOk};
ghost use Rattle.solid_data.specs.Cells.{cell_of, with_cell};
ghost use Rattle.solid_data.specs.Ranges.{IsSpanOf, IsWithin};
ghost use Rattle.edge_uses.specs.ShellRows.{AreRows};
ghost use Rattle.edge_uses.specs.Tally.{seen_once_more, IsTally};
ghost use Rattle.solid_data.specs.declared.TheConstants.{PART_LIMIT};

use crate::row::Row;
use crate::table::Rows;
use iges_base::NoMemory;
use solid_data::Cells;
use std::alloc::Global;
use std::marker::Model;

/// How often an edge was run along and against, and by which row last, from 0; where none did, that row is 0 too.
#[derive(Clone, Copy)]
pub struct Seen {
    /// How many rows run along the edge.
    pub along: u32,
    /// The last row along the edge, from 0; 0 where there is none.
    pub along_row: u32,
    /// How many rows run against the edge.
    pub against: u32,
    /// The last row against the edge, from 0; 0 where there is none.
    pub against_row: u32,
}

const UNSEEN: Seen = Seen {
    along: 0,
    along_row: 0,
    against: 0,
    against_row: 0,
};

/// What was seen of each edge of a range.
#[derive(Drop)]
pub struct Tally<'a> {
    cells: Cells<'a, Seen>,
}

impl<'a> Model for Tally<'a> {
    ghost use Rattle.std.specs.Prelude.{◌≡◌};
    ghost use Rattle.edge_uses.specs.Tally.{Tallied, unseen};

    ghost Value = { Tallied };

    ghost view = { λ t. record { span = t.cells.span; seen = t.cells.cells } };

    ghost invariant = { λ t. t.cells.blank ≡ unseen };
}

fn once_more(seen: Seen, r: u32, along: bool) -> Seen
    requires along { seen.along < PART_LIMIT }
    requires against { seen.against < PART_LIMIT }
    ensures { result ≡ seen_once_more seen r along }
{
    if along {
        Seen {
            along: seen.along + 1,
            along_row: r,
            ..seen
        }
    } else {
        Seen {
            against: seen.against + 1,
            against_row: r,
            ..seen
        }
    }
}

fn see(cells: &mut Cells<'_, Seen>, row: Row, r: u32)
    requires known { Contains cells.old.numbers row.edge.0 }
    requires within { IsWithin cells.old.span row.edge.0 }
    requires few { let seen = cell_of cells.old row.edge.0 in
        (seen.along < PART_LIMIT) × (seen.against < PART_LIMIT) }
    ensures { cells.new ≡ with_cell cells.old row.edge.0
        (seen_once_more (cell_of cells.old row.edge.0) r row.along) }
{
    let seen = cells.at(row.edge.0);
    cells.set(row.edge.0, once_more(seen, r, row.along));
}

/// What the rows of a shell are seen to do to the edges of their range. It takes no longer where they lie far apart.
pub fn tally_of(alloc: Global, rows: &Rows) -> Result<Tally<'_>, NoMemory>
    ensures span { IfOk result (λ tally. IsSpanOf tally.span rows.now.edges) }
    ensures kept { AreRows rows.now }
    ensures tally { IfOk result (λ tally. IsTally rows.now tally.span tally.seen) }
{
    let mut cells = Cells::new(alloc, rows.edge_slice(), UNSEEN)?;
    let count = rows.len();
    let rows = rows.row_slice();
    'rows: for i in 0..count {
        see(&mut cells, rows[i], i as u32);
    }
    Ok(Tally { cells })
}

impl<'a> Tally<'a> {
    ghost use Rattle.std.specs.Prelude.{◌≡◌};
    ghost use Rattle.solid_data.specs.Ranges.{IsWithin};
    ghost use Rattle.edge_uses.specs.Tally.{seen_of};

    /// What was seen of an edge of the range.
    pub fn of(&self, e: u32) -> Seen
        requires { IsWithin self.now.span e }
        ensures { result ≡ seen_of self.now.span self.now.seen e }
    {
        self.cells.at(e)
    }
}
