//! The mate of each row.

ghost use Rattle.std.specs.Prelude.{◌≡◌, ◌↔◌, IsTrue, All, IfOk, IfErr, MatchOption, if◌then◌else◌};
ghost use Rattle.std.specs.List.{AllByRecursion};
ghost use Rattle.solid_data.specs.Obligations.{FirstNot};
ghost use Rattle.solid_data.specs.Ranges.{IsWithin};
ghost use Rattle.edge_uses.specs.ShellRows.{EndsMeet};
ghost use Rattle.edge_uses.specs.RowRelations.{IsPaired};
ghost use Rattle.edge_uses.specs.Mates.{ArePaired, HaveMates};
ghost use Rattle.edge_uses.specs.Faults.{IsPairFault};
ghost use Rattle.edge_uses.specs.Tally.{seen_of, IsTally};

use crate::fault::PairFault;
use crate::paired::Paired;
use crate::row::Row;
use crate::table::Rows;
use crate::tally::{Tally, tally_of};
use iges_base::NoMemory;
use solid_data::EdgeId;
use std::alloc::Global;

fn is_paired(tally: &Tally<'_>, e: u32) -> bool
    requires { IsWithin tally.now.span e }
    ensures { IsTrue result ↔ ((seen_of tally.now.span tally.now.seen e).along ≡ 1)
        × ((seen_of tally.now.span tally.now.seen e).against ≡ 1) }
{
    let seen = tally.of(e);
    seen.along == 1 && seen.against == 1
}

fn first_unpaired(rows: &Rows, tally: &Tally<'_>) -> Option<u32>
    requires tally { IsTally rows.now tally.now.span tally.now.seen }
    requires span { All (IsWithin tally.now.span) rows.now.edges }
    ensures { MatchOption result (AllByRecursion (IsPaired rows.now) rows.now.edges)
        (λ e. FirstNot (IsPaired rows.now) rows.now.edges e) }
{
    let edges = rows.edge_slice();
    'edges: for i in 0..edges.len() {
        if !is_paired(tally, edges[i]) {
            return Some(edges[i]);
        }
    }
    None
}

fn mate_in(tally: &Tally<'_>, row: Row) -> u32
    requires { IsWithin tally.now.span row.edge.0 }
    ensures { let seen = seen_of tally.now.span tally.now.seen row.edge.0 in result
        ≡ (if row.along then seen.against_row else seen.along_row) }
{
    let seen = tally.of(row.edge.0);
    if row.along {
        seen.against_row
    } else {
        seen.along_row
    }
}

fn mates_of(alloc: Global, rows: &Rows, tally: &Tally<'_>) -> Result<Vec<u32>, NoMemory>
    requires tally { IsTally rows.now tally.now.span tally.now.seen }
    requires span { AllByRecursion (λ (r : Row). IsWithin tally.now.span r.edge.0) rows.now.rows }
    requires whole { ArePaired rows.now }
    ensures { IfOk result (λ mates. HaveMates rows.now mates.items) }
{
    let rows = rows.row_slice();
    let mut mates = Vec::with_capacity(alloc, rows.len())?;
    'rows: for i in 0..rows.len() {
        mates.push(mate_in(tally, rows[i]))?;
    }
    Ok(mates)
}

/// The rows with their mates, where each edge has two rows, one along it and one against it. Each row ends where the
/// row that follows it starts; the rows of a shell whose loops join do.
pub fn pair(alloc: Global, rows: &Rows) -> Result<Paired<'_>, PairFault>
    requires { EndsMeet rows.now }
    ensures rows { IfOk result (λ p. p ≡ rows.now) }
    ensures paired { IfOk result (λ _. AllByRecursion (IsPaired rows.now) rows.now.edges) }
    ensures fault { IfErr result (λ fault. IsPairFault rows.now fault) }
{
    let tally = tally_of(alloc, rows)?;
    if let Some(edge) = first_unpaired(rows, &tally) {
        return Err(PairFault::Unpaired(EdgeId(edge)));
    }
    let mates = mates_of(alloc, rows, &tally)?;
    Ok(Paired::of(rows, mates))
}
