//! The rows of an open shell with their mates.

use crate::mating::{first_not_once, open_edges, open_mates};
use edge_uses::{Rows, Tally, tally_of};
use iges_base::NoMemory;
use open_certificate::OpenEdges;
use shell_reach::Mates;
use solid_data::{EdgeId, RowId};
use std::alloc::Global;
use std::marker::Model;

/// Why rows have no mates.
#[derive(Clone, Copy)]
pub(crate) enum EdgeFault {
    /// The least edge that is used neither once nor by mates.
    NotOnce(EdgeId),
    /// Memory ran out.
    NoMemory,
}

impl From<NoMemory> for EdgeFault {
    ghost use Rattle.std.specs.Prelude.{◌≡◌};
    ghost use Rattle.open_shells.specs.declared.mated.EdgeFault.TheVariants.{NoMemory as OutOfMemory};

    ghost from_gives = { λ _ e. e ≡ OutOfMemory };

    fn from(_: NoMemory) -> EdgeFault {
        EdgeFault::NoMemory
    }
}

/// The rows of a shell of which each has one mate, or is a border row.
#[derive(Drop)]
pub(crate) struct Mated<'a> {
    rows: &'a Rows,
    mates: Vec<Option<RowId>>,
}

impl<'a> Model for Mated<'a> {
    ghost use Rattle.edge_uses.specs.ShellRows.{ShellRows};

    ghost Value = { ShellRows };

    ghost use Rattle.open_shells.specs.Mating.{HaveOpenMates};

    ghost view = { λ m. m.rows.now };

    ghost invariant = { λ m. HaveOpenMates m.rows.now m.mates.items };
}

impl<'a> Mated<'a> {
    ghost use Rattle.std.specs.Prelude.{◌≡◌, ◌<◌, length, MatchOption};
    ghost use Rattle.edge_uses.specs.RowRelations.{AreMates, Turns};
    ghost use Rattle.open_certificate.specs.Sound.{IsBorder};
    ghost use Rattle.open_shells.specs.Mating.{AreOnce, HaveOpenMates};

    pub(crate) fn of(rows: &'a Rows, mates: Vec<Option<RowId>>) -> Mated<'a>
        requires { HaveOpenMates rows.now mates.items }
        ensures { result ≡ rows.now }
    {
        Mated { rows, mates }
    }

    /// The rows.
    pub(crate) fn rows(&self) -> &Rows
        ensures rows { result.now ≡ self.now }
        ensures whole { AreOnce self.now }
    {
        self.rows
    }

    /// The mate of a row; none where it is a border row.
    pub(crate) fn mate(&self, r: u32) -> Option<u32>
        requires { r < length self.now.rows }
        ensures { MatchOption result (IsBorder self.now r) (λ m. AreMates self.now r m) }
    {
        match self.mates[r as usize] {
            Some(mate) => Some(mate.0),
            None => None,
        }
    }

    /// The row that follows the mate of a row; none where it is a border row.
    pub(crate) fn turn(&self, r: u32) -> Option<u32>
        requires { r < length self.now.rows }
        ensures { MatchOption result (IsBorder self.now r) (λ t. Turns self.now r t) }
    {
        match self.mate(r) {
            Some(mate) => Some(self.rows.follows(RowId(mate)).unwrap().0),
            None => None,
        }
    }
}

impl<'a> Mates for Mated<'a> {
    ghost shell = { λ m. m };

    fn table(&self) -> &Rows {
        self.rows()
    }

    fn mate_of(&self, r: RowId) -> Option<RowId> {
        match self.mate(r.0) {
            Some(mate) => Some(RowId(mate)),
            None => None,
        }
    }
}

ghost use Rattle.std.specs.Prelude.{◌≡◌, IfOk, IfErr};
ghost use Rattle.std.specs.List.{AllByRecursion, AllZip};
ghost use Rattle.solid_data.specs.Ranges.{IsWithin};
ghost use Rattle.edge_uses.specs.declared.row.Row.{Row as AnyRow};
ghost use Rattle.edge_uses.specs.ShellRows.{AreRows, EndsMeet};
ghost use Rattle.edge_uses.specs.Tally.{IsTally};
ghost use Rattle.open_certificate.specs.Sound.{IsOnce};
ghost use Rattle.open_shells.specs.Mating.{AreRowsOf};
ghost use Rattle.open_shells.specs.EdgeFaults.{IsEdgeFault};

// As `with_mates`, where this is the tally of the rows.
fn mates_by<'a>(
    alloc: Global,
    rows: &'a Rows,
    tally: &Tally<'_>,
) -> Result<(OpenEdges, Mated<'a>), EdgeFault>
    requires known { AreRows rows.now }
    requires meet { EndsMeet rows.now }
    requires tally { IsTally rows.now tally.now.span tally.now.seen }
    requires edges { AllByRecursion (IsWithin tally.now.span) rows.now.edges }
    requires rows { AllByRecursion (λ (r : AnyRow). IsWithin tally.now.span r.edge.0) rows.now.rows }
    ensures rows { IfOk result (λ p. p.1 ≡ rows.now) }
    ensures edges { IfOk result (λ p. AllZip (AreRowsOf rows.now) rows.now.edges p.0) }
    ensures once { IfOk result (λ _. AllByRecursion (IsOnce rows.now) rows.now.edges) }
    ensures fault { IfErr result (IsEdgeFault rows.now) }
{
    if let Some(edge) = first_not_once(rows, tally) {
        return Err(EdgeFault::NotOnce(edge));
    }
    let edges = open_edges(alloc, rows, tally)?;
    let mates = open_mates(alloc, rows, tally)?;
    Ok((edges, Mated::of(rows, mates)))
}

/// The rows of each edge, by rising edge, and the rows with their mates, where each edge is used once or by mates.
pub(crate) fn with_mates(alloc: Global, rows: &Rows) -> Result<(OpenEdges, Mated<'_>), EdgeFault>
    requires { EndsMeet rows.now }
    ensures rows { IfOk result (λ p. p.1 ≡ rows.now) }
    ensures edges { IfOk result (λ p. AllZip (AreRowsOf rows.now) rows.now.edges p.0) }
    ensures once { IfOk result (λ _. AllByRecursion (IsOnce rows.now) rows.now.edges) }
    ensures fault { IfErr result (IsEdgeFault rows.now) }
{
    let tally = tally_of(alloc, rows)?;
    let made = mates_by(alloc, rows, &tally);
    drop(tally);
    made
}
