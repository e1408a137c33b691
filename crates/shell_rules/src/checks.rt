//! What is judged of a solid beside the lines of its certificate.

ghost use Rattle.std.specs.Prelude.{◌≡◌, ◌+◌, ◌<◌, Some, length, slice_get, IfOk, IfErr, OnOk};
ghost use Rattle.solid_data.specs.Obligations.{AllHold, FirstFalse};
ghost use Rattle.solid_data.specs.declared.verdict.Failing.{Failing as Named};
ghost use Rattle.edge_uses.specs.Before.{AreBelow};
ghost use Rattle.shell_rules.specs.ShellObligations.{checked_of_shell, checked_obligations};
ghost use Rattle.shell_rules.specs.Faults.{IsCheckFault, IsNoMemory, FailsSo};

use crate::fault::CheckFault;
use crate::judging::{apart, join};
use edge_uses::{VerticesBefore, rows};
use solid_data::{Shell, ShellAt, Solid};
use std::alloc::Global;

/// The shell at a place.
pub fn shell_at(solid: &Solid, at: ShellAt) -> &Shell
    requires { at.0 < length solid.now.shells }
    ensures { slice_get solid.now.shells at.0 ≡ Some result.now }
{
    solid.shell(at).unwrap()
}

/// The vertices of the shells up to this one, whose loops join and whose vertices are apart.
fn check_shell(
    alloc: Global,
    solid: &Solid,
    at: ShellAt,
    shell: &Shell,
    before: VerticesBefore,
) -> Result<VerticesBefore, CheckFault>
    requires at { slice_get solid.now.shells at.0 ≡ Some shell.now }
    requires before { AreBelow solid.now at.0 before }
    ensures before { IfOk result (AreBelow solid.now (at.0 + 1)) }
    ensures holds { OnOk result (AllHold (checked_of_shell solid.now (at.0, shell.now))) }
    ensures fails { IfErr result (IsCheckFault (checked_of_shell solid.now (at.0, shell.now))) }
{
    solid.recall_numbering();
    join(solid, at, shell)?;
    let rows = rows(alloc, solid, at)?;
    apart(solid, at, before, &rows)?;
    Ok(before.with(&rows))
}

/// Judges the shells one after the other: that each loop joins, and then that no vertex is one of a shell before.
fn check_each(alloc: Global, solid: &Solid) -> Result<(), CheckFault>
    ensures holds { OnOk result (AllHold (checked_obligations solid.now)) }
    ensures fault { IfErr result (IsCheckFault (checked_obligations solid.now)) }
    ensures only { AllHold (checked_obligations solid.now) → IfErr result IsNoMemory }
    ensures only_fault { (x : Named) → FirstFalse (checked_obligations solid.now) x
        → FailsSo x result }
{
    let mut before = VerticesBefore::none();
    'shells: for k in 0..solid.shell_count() {
        let at = ShellAt(k as u32);
        let shell = shell_at(solid, at);
        before = check_shell(alloc, solid, at, shell, before)?;
    }
    Ok(())
}

/// Judges the only shell of a solid: that each loop joins. No shell before has a vertex, so its rows aren't made.
fn check_only(solid: &Solid) -> Result<(), CheckFault>
    requires { length solid.now.shells ≡ 1 }
    ensures holds { OnOk result (AllHold (checked_obligations solid.now)) }
    ensures fault { IfErr result (IsCheckFault (checked_obligations solid.now)) }
    ensures only { AllHold (checked_obligations solid.now) → IfErr result IsNoMemory }
    ensures only_fault { (x : Named) → FirstFalse (checked_obligations solid.now) x
        → FailsSo x result }
{
    let at = ShellAt(0);
    join(solid, at, shell_at(solid, at))?;
    Ok(())
}

/// Judges what the lines of a certificate don't show: shell by shell that each loop joins, and then that no vertex is
/// one of a shell before. Errs with the first of these rules that fails, and where.
pub fn check_shells(alloc: Global, solid: &Solid) -> Result<(), CheckFault>
    ensures holds { OnOk result (AllHold (checked_obligations solid.now)) }
    ensures fault { IfErr result (IsCheckFault (checked_obligations solid.now)) }
    ensures only { AllHold (checked_obligations solid.now) → IfErr result IsNoMemory }
    ensures only_fault { (x : Named) → FirstFalse (checked_obligations solid.now) x
        → FailsSo x result }
{
    if solid.shell_count() == 1 {
        check_only(solid)
    } else {
        check_each(alloc, solid)
    }
}
