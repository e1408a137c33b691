//! The rules on a shell, one after the other.

ghost use Rattle.std.specs.Prelude.{◌≡◌, IfOk, IfErr, OnOk, length};
ghost use Rattle.solid_data.specs.Obligations.{AllHold};
ghost use Rattle.edge_uses.specs.ShellRows.{EndsMeet};
ghost use Rattle.shell_rules.specs.ShellObligations.{pair_obligations, reach_obligations, link_obligations};
ghost use Rattle.vertex_link.specs.Corners.{AreLinks};
ghost use Rattle.shell_reach.specs.Reaching.{ReachesAll, row_numbers, IsBreadthFirst};
ghost use Rattle.shell_rules.specs.Faults.{IsCheckFault};

use crate::fault::MakeFault;
use crate::naming::{unpaired, unreached};
use edge_uses::{PairFault, Paired, Rows, pair};
use shell_reach::{ReachFault, ReachList, reach};
use shell_rules::at_vertex;
use solid_data::{Rule, Shell, Solid};
use std::alloc::Global;
use vertex_link::{LinkFault, Links, links};

/// The rows with their mates, where each edge is paired.
pub(crate) fn mated<'a>(
    alloc: Global,
    solid: &Solid,
    rows: &'a Rows,
) -> Result<Paired<'a>, MakeFault>
    requires { EndsMeet rows.now }
    ensures rows { IfOk result (λ p. p ≡ rows.now) }
    ensures holds { OnOk result (AllHold (pair_obligations solid.now rows.now)) }
    ensures fails { IfErr result (IsCheckFault (pair_obligations solid.now rows.now)) }
{
    match pair(alloc, rows) {
        Ok(paired) => Ok(paired),
        Err(PairFault::Unpaired(edge)) => Err(MakeFault::Fails(unpaired(solid, edge))),
        Err(PairFault::NoMemory) => Err(MakeFault::NoMemory),
    }
}

/// Rows that reach the faces, where each face is reached.
pub(crate) fn reached(
    alloc: Global,
    shell: &Shell,
    paired: &Paired<'_>,
) -> Result<ReachList, MakeFault>
    requires { paired.now.face_count ≡ length shell.now.faces }
    ensures rows { IfOk result (λ rows. ReachesAll paired.now (row_numbers rows)) }
    ensures order { IfOk result (λ rows. IsBreadthFirst paired.now (row_numbers rows)) }
    ensures holds { OnOk result (AllHold (reach_obligations shell.now paired.now)) }
    ensures fails { IfErr result (IsCheckFault (reach_obligations shell.now paired.now)) }
{
    match reach(alloc, paired) {
        Ok(rows) => Ok(rows),
        Err(ReachFault::Unreached(face)) => Err(MakeFault::Fails(unreached(shell, face))),
        Err(ReachFault::NoMemory) => Err(MakeFault::NoMemory),
    }
}

/// What lies round each vertex, where each is linked.
pub(crate) fn linked(alloc: Global, solid: &Solid, paired: &Paired<'_>) -> Result<Links, MakeFault>
    ensures links { IfOk result (λ links. AreLinks paired.now links) }
    ensures holds { OnOk result (AllHold (link_obligations solid.now paired.now)) }
    ensures fails { IfErr result (IsCheckFault (link_obligations solid.now paired.now)) }
{
    match links(alloc, paired) {
        Ok(corners) => Ok(corners),
        Err(LinkFault::Broken(vertex)) => Err(MakeFault::Fails(at_vertex(
            solid,
            Rule::Unlinked,
            vertex,
        ))),
        Err(LinkFault::NoMemory) => Err(MakeFault::NoMemory),
    }
}
