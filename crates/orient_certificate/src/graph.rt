//! A shell as steps between its faces.

ghost use Rattle.std.specs.Prelude.{◌≡◌, ◌<◌, length, slice_get, IfOk, IfErr, IfSome, Some};
ghost use Rattle.solid_data.specs.Numbering.{IsNumberedSolid};
ghost use Rattle.solid_data.specs.Ranges.{IsSpanOf};
ghost use Rattle.orient_certificate.specs.Outcome.{CountFails, IsFault};
ghost use Rattle.orient_certificate.specs.Graph.{AreStepsOf, IsGraphOf};
ghost use Rattle.orient_certificate.specs.Flags.{face_flags, rows_at};
ghost use Rattle.orient_certificate.specs.RowsByEdge.{AreRowsByEdge};
ghost use Rattle.edge_uses.specs.ShellRows.{AreRows};

use crate::crossing::{Crossing, forwards_of, steps_of};
use crate::fault::OrientFault;
use crate::naming::miscounted;
use crate::rows_by_edge::{RowsByEdge, first_miscounted, rows_by_edge_of};
use edge_uses::{Rows, rows};
use solid_data::{Shell, ShellAt, Solid};
use std::alloc::Global;

/// The steps of a shell's rows, how many faces it has, and the first one's flag.
#[derive(Drop)]
pub struct Graph {
    /// One step for each row, by its number from 0.
    pub crossings: Vec<Crossing>,
    /// How many faces the shell has.
    pub faces: usize,
    /// The shell's orientation flag for its first face.
    pub first: bool,
}

/// The flag of a shell's first face.
fn first_flag(shell: &Shell) -> bool
    requires { 0 < length shell.now.faces }
    ensures { slice_get (face_flags (Some shell.now)) 0 ≡ Some result }
{
    shell.faces.as_slice()[0].flag
}

// The steps of a shell's rows, by the rows of each edge, or the least edge that hasn't two.
fn steps_by(
    alloc: Global,
    solid: &Solid,
    at: ShellAt,
    shell: &Shell,
    rows: &Rows,
    by_edge: &RowsByEdge<'_>,
) -> Result<Vec<Crossing>, OrientFault>
    requires shell { slice_get solid.now.shells at.0 ≡ Some shell.now }
    requires rows { rows.now ≡ rows_at solid.now at.0 }
    requires whole { AreRows rows.now }
    requires span { IsSpanOf by_edge.now.span rows.now.edges }
    requires by_edge { AreRowsByEdge rows.now by_edge.now.span by_edge.now.seen }
    ensures steps { IfOk result (λ steps. AreStepsOf shell.now rows.now steps.items) }
    ensures fault { IfErr result (IsFault (CountFails solid.now at.0)) }
{
    if let Some(edge) = first_miscounted(rows, by_edge) {
        return Err(OrientFault::Fails(miscounted(solid, edge)));
    }
    let forwards = forwards_of(alloc, shell)?;
    let steps = steps_of(alloc, rows, by_edge, forwards.as_slice())?;
    Ok(steps)
}

// The steps of a shell's rows, or the least edge that hasn't two.
fn crossings_of(
    alloc: Global,
    solid: &Solid,
    at: ShellAt,
    shell: &Shell,
    rows: &Rows,
) -> Result<Vec<Crossing>, OrientFault>
    requires shell { slice_get solid.now.shells at.0 ≡ Some shell.now }
    requires rows { rows.now ≡ rows_at solid.now at.0 }
    ensures steps { IfOk result (λ steps. AreStepsOf shell.now rows.now steps.items) }
    ensures kept { AreRows rows.now }
    ensures fault { IfErr result (IsFault (CountFails solid.now at.0)) }
{
    let by_edge = rows_by_edge_of(alloc, rows)?;
    steps_by(alloc, solid, at, shell, rows, &by_edge)
}

/// A shell as steps, or its least edge that hasn't two rows.
pub fn graph_of(alloc: Global, solid: &Solid, at: ShellAt) -> Result<Graph, OrientFault>
    requires { at.0 < length solid.now.shells }
    ensures graph { IfOk result (λ g. IsGraphOf solid.now at.0 g.crossings.items g.faces g.first) }
    ensures fault { IfErr result (IsFault (CountFails solid.now at.0)) }
{
    solid.recall_numbering();
    let shell = solid.shell(at).unwrap();
    let rows = rows(alloc, solid, at)?;
    let crossings = crossings_of(alloc, solid, at, shell, &rows)?;
    Ok(Graph {
        crossings,
        faces: rows.face_count(),
        first: first_flag(shell),
    })
}
