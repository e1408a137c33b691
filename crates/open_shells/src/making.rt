//! The maker: the certificate of a sound open shell, or the first rule that fails on another.

ghost use Rattle.std.specs.Prelude.{◌≡◌, Some, IfOk, IfErr, OnOk, map, slice_get, length};
ghost use Rattle.solid_data.specs.Numbering.{IsNumberedSolid};
ghost use Rattle.edge_uses.specs.Joins.{join_obligations};
ghost use Rattle.edge_uses.specs.ShellRows.{EndsMeet, shell_rows};
ghost use Rattle.open_certificate.specs.Legal.{IsOpenShell, IsOpenAccepted};
ghost use Rattle.open_shells.specs.Certified.{IsOpenCertificate, IsOpenFault, IsNoMemory, FailsSo};
ghost use Rattle.open_shells.specs.Listed.{AreListedParts};
ghost use Rattle.open_shells.specs.Mating.{AreOnce};
ghost use Rattle.open_certificate.specs.Obligations.{AllHold, FirstFalse, as_open, open_shell_obligations, open_obligations};
ghost use Rattle.open_certificate.specs.Progress.{shell_of};
ghost use Rattle.open_certificate.specs.Written.{open_lines, text_of};
ghost use Rattle.open_certificate.specs.declared.verdict.OpenFailing.{OpenFailing as Named};

use crate::bordering::border_cycles;
use crate::fault::OpenFault;
use crate::judging::{fanned, join, once, reached};
use edge_uses::{Rows, rows};
use open_certificate::{OpenCertificate, OpenRule};
use solid_data::{Shell, ShellAt, Solid};
use std::alloc::Global;

// The parts of a shell whose loops join and whose rows these are, or the first rule that fails on it: EDGE of the edges,
// REACH of the faces, FAN of the vertices.
fn row_parts(
    alloc: Global,
    solid: &Solid,
    shell: &Shell,
    rows: &Rows,
) -> Result<OpenCertificate, OpenFault>
    requires rows { rows.now ≡ shell_rows solid.now shell.now }
    requires meet { EndsMeet rows.now }
    requires joined { AllHold (map (as_open OpenRule.Join) (join_obligations solid.now shell.now)) }
    ensures parts { IfOk result (λ c. AreListedParts
        (shell_rows solid.now shell.now) c.edges c.corners c.reach c.borders) }
    ensures names { IfOk result (λ c. c.shell ≡ solid.now.entity) }
    ensures rows { IfOk result (λ c. c.rows ≡ length (shell_rows solid.now shell.now).rows) }
    ensures faces { IfOk result (λ c. c.faces ≡ (shell_rows solid.now shell.now).face_count) }
    ensures once { OnOk result (AreOnce (shell_rows solid.now shell.now)) }
    ensures numbered { OnOk result (IsNumberedSolid solid.now) }
    ensures holds { OnOk result (AllHold (open_shell_obligations solid.now shell.now)) }
    ensures fails { IfErr result (IsOpenFault (open_shell_obligations solid.now shell.now)) }
{
    // Its clause says that the solid's vertices are numbered by first appearance.
    let entity = solid.entity();
    let (edges, mated) = once(alloc, solid, rows)?;
    let reach = reached(alloc, shell, &mated)?;
    let corners = fanned(alloc, solid, &mated)?;
    // Its clause says that each edge is used once or by mates.
    let table = mated.rows();
    let count = table.len() as u32;
    let faces = table.face_count() as u32;
    let borders = border_cycles(alloc, &mated)?;
    Ok(OpenCertificate {
        shell: entity,
        rows: count,
        edges,
        corners,
        faces,
        reach,
        borders,
    })
}

/// The parts of a shell, or the first rule that fails on it: JOIN of the loops, EDGE of the edges, REACH of the faces, FAN of
/// the vertices.
fn shell_parts(alloc: Global, solid: &Solid, shell: &Shell) -> Result<OpenCertificate, OpenFault>
    requires { slice_get solid.now.shells 0 ≡ Some shell.now }
    ensures parts { IfOk result (λ c. AreListedParts
        (shell_rows solid.now shell.now) c.edges c.corners c.reach c.borders) }
    ensures names { IfOk result (λ c. c.shell ≡ solid.now.entity) }
    ensures rows { IfOk result (λ c. c.rows ≡ length (shell_rows solid.now shell.now).rows) }
    ensures faces { IfOk result (λ c. c.faces ≡ (shell_rows solid.now shell.now).face_count) }
    ensures once { OnOk result (AreOnce (shell_rows solid.now shell.now)) }
    ensures numbered { OnOk result (IsNumberedSolid solid.now) }
    ensures holds { OnOk result (AllHold (open_shell_obligations solid.now shell.now)) }
    ensures fails { IfErr result (IsOpenFault (open_shell_obligations solid.now shell.now)) }
{
    join(solid, shell)?;
    let rows = rows(alloc, solid, ShellAt(0))?;
    let made = row_parts(alloc, solid, shell, &rows);
    drop(rows);
    made
}

/// The parts of an open shell, or the first rule that fails on it.
pub(crate) fn listed_parts(alloc: Global, solid: &Solid) -> Result<OpenCertificate, OpenFault>
    requires { IsOpenShell solid.now }
    ensures parts { IfOk result (λ c. AreListedParts
        (shell_of solid.now) c.edges c.corners c.reach c.borders) }
    ensures names { IfOk result (λ c. c.shell ≡ solid.now.entity) }
    ensures rows { IfOk result (λ c. c.rows ≡ length (shell_of solid.now).rows) }
    ensures faces { IfOk result (λ c. c.faces ≡ (shell_of solid.now).face_count) }
    ensures once { OnOk result (AreOnce (shell_of solid.now)) }
    ensures numbered { OnOk result (IsNumberedSolid solid.now) }
    ensures holds { OnOk result (AllHold (open_obligations solid.now)) }
    ensures fails { IfErr result (IsOpenFault (open_obligations solid.now)) }
{
    shell_parts(alloc, solid, solid.shell(ShellAt(0)).unwrap())
}

/// The certificate of a solid that is one open shell. Where the shell isn't sound, the fault is its first rule that
/// fails: JOIN of the loops, EDGE of the edges, REACH of the faces, FAN of the vertices. On a sound shell nothing but memory
/// can fail.
pub fn open_certify(alloc: Global, solid: &Solid) -> Result<OpenCertificate, OpenFault>
    requires { IsOpenShell solid.now }
    ensures certificate { IfOk result (IsOpenCertificate solid.now) }
    ensures accepted { IfOk result (λ c. IsOpenAccepted solid.now (text_of (open_lines c))) }
    ensures parts { IfOk result (λ c. AreListedParts
        (shell_of solid.now) c.edges c.corners c.reach c.borders) }
    ensures holds { OnOk result (AllHold (open_obligations solid.now)) }
    ensures fault { IfErr result (IsOpenFault (open_obligations solid.now)) }
    ensures only { AllHold (open_obligations solid.now) → IfErr result IsNoMemory }
    ensures only_fault { (x : Named) → FirstFalse (open_obligations solid.now) x
        → FailsSo x result }
{
    let made = listed_parts(alloc, solid)?;
    Ok(made)
}
