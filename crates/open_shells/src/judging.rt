//! The rules on an open shell, one after the other.

ghost use Rattle.std.specs.Prelude.{◌≡◌, Some, IfOk, IfErr, OnOk, length, map, slice_get};
ghost use Rattle.std.specs.List.{AllByRecursion, AllZip};
ghost use Rattle.edge_uses.specs.ShellRows.{EndsMeet, shell_rows};
ghost use Rattle.edge_uses.specs.Joins.{join_obligations};
ghost use Rattle.shell_rules.specs.ShellObligations.{reach_obligations};
ghost use Rattle.open_certificate.specs.Sound.{IsFanned};
ghost use Rattle.open_certificate.specs.Obligations.{AllHold, FirstFalse, as_open, edge_obligation, fan_obligation};
ghost use Rattle.open_shells.specs.Mating.{AreRowsOf};
ghost use Rattle.open_shells.specs.FanParts.{LiesAt};
ghost use Rattle.shell_reach.specs.Reaching.{ReachesAll, row_numbers};
ghost use Rattle.open_shells.specs.Certified.{IsOpenFault};

use crate::fanning::{FanFault, fans};
use crate::fault::OpenFault;
use crate::mated::{EdgeFault, Mated, with_mates};
use crate::naming::{not_fanned, not_once, unjoined, unreached};
use edge_uses::{Rows, first_unjoined};
use open_certificate::{OpenCorners, OpenEdges, OpenFailing, OpenRule};
use shell_reach::{ReachFault, reach_faces};
use solid_data::{RowList, Shell, ShellAt, Solid};
use std::alloc::Global;

/// Whether each loop joins.
pub(crate) fn join(solid: &Solid, shell: &Shell) -> Result<(), OpenFailing>
    requires { slice_get solid.now.shells 0 ≡ Some shell.now }
    ensures holds { OnOk result (AllHold (map (as_open OpenRule.Join)
        (join_obligations solid.now shell.now))) }
    ensures meet { OnOk result (EndsMeet (shell_rows solid.now shell.now)) }
    ensures fails { IfErr result (FirstFalse
        (map (as_open OpenRule.Join) (join_obligations solid.now shell.now))) }
{
    match first_unjoined(solid, ShellAt(0)) {
        Some(open) => Err(unjoined(shell, open)),
        None => Ok(()),
    }
}

/// The rows of each edge, and the rows with their mates, where each edge is used once or by mates.
pub(crate) fn once<'a>(
    alloc: Global,
    solid: &Solid,
    rows: &'a Rows,
) -> Result<(OpenEdges, Mated<'a>), OpenFault>
    requires { EndsMeet rows.now }
    ensures rows { IfOk result (λ p. p.1 ≡ rows.now) }
    ensures edges { IfOk result (λ p. AllZip (AreRowsOf rows.now) rows.now.edges p.0) }
    ensures holds { OnOk result (AllHold (map
        (edge_obligation solid.now rows.now) rows.now.edges)) }
    ensures fails { IfErr result (IsOpenFault
        (map (edge_obligation solid.now rows.now) rows.now.edges)) }
{
    match with_mates(alloc, rows) {
        Ok(made) => Ok(made),
        Err(EdgeFault::NotOnce(edge)) => Err(OpenFault::Fails(not_once(solid, edge))),
        Err(EdgeFault::NoMemory) => Err(OpenFault::NoMemory),
    }
}

/// Rows that reach the faces, where each face is reached.
pub(crate) fn reached(alloc: Global, shell: &Shell, mated: &Mated<'_>) -> Result<RowList, OpenFault>
    requires { mated.now.face_count ≡ length shell.now.faces }
    ensures rows { IfOk result (λ rows. ReachesAll mated.now (row_numbers rows)) }
    ensures holds { OnOk result (AllHold (map (as_open OpenRule.Reach)
        (reach_obligations shell.now mated.now))) }
    ensures fails { IfErr result (IsOpenFault
        (map (as_open OpenRule.Reach) (reach_obligations shell.now mated.now))) }
{
    match reach_faces(alloc, mated) {
        Ok(rows) => Ok(rows),
        Err(ReachFault::Unreached(face)) => Err(OpenFault::Fails(unreached(shell, face))),
        Err(ReachFault::NoMemory) => Err(OpenFault::NoMemory),
    }
}

/// What lies at each vertex, where each has a fan or is one loop without an edge.
pub(crate) fn fanned(
    alloc: Global,
    solid: &Solid,
    mated: &Mated<'_>,
) -> Result<OpenCorners, OpenFault>
    ensures corners { IfOk result (AllZip (LiesAt mated.now) mated.now.vertices) }
    ensures fanned { IfOk result (λ _. AllByRecursion (IsFanned mated.now) mated.now.vertices) }
    ensures holds { OnOk result (AllHold (map
        (fan_obligation solid.now mated.now) mated.now.vertices)) }
    ensures fails { IfErr result (IsOpenFault
        (map (fan_obligation solid.now mated.now) mated.now.vertices)) }
{
    match fans(alloc, mated) {
        Ok(corners) => Ok(corners),
        Err(FanFault::NotFanned(vertex)) => Err(OpenFault::Fails(not_fanned(solid, vertex))),
        Err(FanFault::NoMemory) => Err(OpenFault::NoMemory),
    }
}
