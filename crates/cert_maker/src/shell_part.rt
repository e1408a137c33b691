//! A shell's part of a certificate.

ghost use Rattle.std.specs.Prelude.{◌≡◌, ◌+◌, ◌<◌, ◌^◌, length, Some, IfOk, IfErr, OnOk, slice_get};
ghost use Rattle.solid_data.specs.Obligations.{AllHold};
ghost use Rattle.edge_uses.specs.Before.{AreBelow};
ghost use Rattle.edge_uses.specs.Joins.{join_obligations};
ghost use Rattle.edge_uses.specs.ShellRows.{EndsMeet, rows_of, shell_rows};
ghost use Rattle.shell_rules.specs.ShellObligations.{shell_obligations};
ghost use Rattle.vertex_link.specs.Corners.{AreLinks};
ghost use Rattle.shell_reach.specs.Reaching.{ReachesAll, row_numbers, IsBreadthFirst};
ghost use Rattle.shell_rules.specs.Faults.{IsCheckFault};
ghost use Rattle.cert_state.specs.Progress.{loops_of};
ghost use Rattle.cert_maker.specs.Certified.{IsPart};

use crate::fault::MakeFault;
use crate::judging::{linked, mated, reached};
use crate::pairs::edge_pairs;
use cert_state::loop_count;
use edge_uses::{Paired, Rows, VerticesBefore, rows};
use iges_base::NoMemory;
use shell_reach::ReachList;
use shell_rules::{apart, join};
use solid_data::{Shell, ShellAt, Solid};
use std::alloc::Global;
use topo_certificate::ShellPart;
use vertex_link::Links;

/// The part of a shell whose faces are reached by these rows and whose vertices have these corners.
fn part_of(
    alloc: Global,
    paired: &Paired<'_>,
    reach: ReachList,
    links: Links,
    loops: u32,
) -> Result<ShellPart, NoMemory>
    requires reach { ReachesAll paired.now (row_numbers reach) }
    requires order { IsBreadthFirst paired.now (row_numbers reach) }
    requires links { AreLinks paired.now links }
    requires few { length paired.now.vertices < 2 ^ 30 }
    ensures { IfOk result (IsPart paired.now loops) }
{
    let rows = paired.rows();
    let edges = edge_pairs(alloc, paired)?;
    Ok(ShellPart {
        rows: rows.len() as u32,
        edges,
        corners: links.into_corners(),
        faces: rows.face_count() as u32,
        reach,
        vertices: rows.vertex_count() as u32,
        loops,
    })
}

/// How many loops a shell of a solid has.
fn loops_in(solid: &Solid, at: ShellAt, shell: &Shell) -> u32
    requires at { slice_get solid.now.shells at.0 ≡ Some shell.now }
    ensures { result ≡ loops_of (Some shell.now) }
{
    solid.recall_numbering();
    loop_count(shell) as u32
}

// The part of a shell with these rows, whose loops join, where the further rules hold: PAIR, REACH, LINK, APART in order.
fn closed_part(
    alloc: Global,
    solid: &Solid,
    at: ShellAt,
    shell: &Shell,
    before: VerticesBefore,
    rows: &Rows,
) -> Result<ShellPart, MakeFault>
    requires at { slice_get solid.now.shells at.0 ≡ Some shell.now }
    requires before { AreBelow solid.now at.0 before }
    requires rows { rows.now ≡ rows_of solid.now (slice_get solid.now.shells at.0) }
    requires joined { AllHold (join_obligations solid.now shell.now) }
    requires meet { EndsMeet rows.now }
    ensures part { IfOk result (IsPart (shell_rows solid.now shell.now)
        (loops_of (Some shell.now))) }
    ensures holds { OnOk result (AllHold (shell_obligations solid.now (at.0, shell.now))) }
    ensures fails { IfErr result (IsCheckFault (shell_obligations solid.now (at.0, shell.now))) }
{
    solid.recall_numbering();
    let paired = mated(alloc, solid, rows)?;
    let reach = reached(alloc, shell, &paired)?;
    let links = linked(alloc, solid, &paired)?;
    apart(solid, at, before, rows)?;
    Ok(part_of(alloc, &paired, reach, links, loops_in(solid, at, shell))?)
}

/// The part of a closed shell, and the vertices of the shells up to it. The rules come in order: JOIN, PAIR, REACH,
/// LINK, APART.
pub(crate) fn shell_part(
    alloc: Global,
    solid: &Solid,
    at: ShellAt,
    shell: &Shell,
    before: VerticesBefore,
) -> Result<(ShellPart, VerticesBefore), MakeFault>
    requires at { slice_get solid.now.shells at.0 ≡ Some shell.now }
    requires before { AreBelow solid.now at.0 before }
    ensures part { IfOk result (λ p. IsPart (shell_rows solid.now shell.now)
        (loops_of (Some shell.now)) p.0) }
    ensures before { IfOk result (λ p. AreBelow solid.now (at.0 + 1) p.1) }
    ensures holds { OnOk result (AllHold (shell_obligations solid.now (at.0, shell.now))) }
    ensures fails { IfErr result (IsCheckFault (shell_obligations solid.now (at.0, shell.now))) }
{
    solid.recall_numbering();
    join(solid, at, shell)?;
    let rows = rows(alloc, solid, at)?;
    let part = closed_part(alloc, solid, at, shell, before, &rows)?;
    Ok((part, before.with(&rows)))
}
