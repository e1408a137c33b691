//! The two rules on a shell that the lines of a certificate don't show.

ghost use Rattle.std.specs.Prelude.{◌≡◌, Some, IfErr, OnOk, slice_get};
ghost use Rattle.solid_data.specs.Obligations.{AllHold, FirstFalse};
ghost use Rattle.edge_uses.specs.Before.{AreBelow};
ghost use Rattle.edge_uses.specs.ShellRows.{EndsMeet, shell_rows, rows_of};
ghost use Rattle.edge_uses.specs.Joins.{join_obligations};
ghost use Rattle.shell_rules.specs.ShellObligations.{apart_obligations};

use crate::naming::{at_vertex, unjoined};
use edge_uses::{Rows, VerticesBefore, first_unjoined};
use solid_data::{Failing, Rule, Shell, ShellAt, Solid};

/// Whether each loop of a shell joins; else JOIN, with the first loop that does not.
pub fn join(solid: &Solid, at: ShellAt, shell: &Shell) -> Result<(), Failing>
    requires { slice_get solid.now.shells at.0 ≡ Some shell.now }
    ensures holds { OnOk result (AllHold (join_obligations solid.now shell.now)) }
    ensures meet { OnOk result (EndsMeet (shell_rows solid.now shell.now)) }
    ensures fails { IfErr result (FirstFalse (join_obligations solid.now shell.now)) }
{
    match first_unjoined(solid, at) {
        Some(open) => Err(unjoined(shell, open)),
        None => Ok(()),
    }
}

/// Whether no vertex of a shell is one of a shell before; else APART, with the least vertex that is.
pub fn apart(solid: &Solid, at: ShellAt, before: VerticesBefore, rows: &Rows) -> Result<(), Failing>
    requires before { AreBelow solid.now at.0 before }
    requires rows { rows.now ≡ rows_of solid.now (slice_get solid.now.shells at.0) }
    ensures holds { OnOk result (AllHold (apart_obligations solid.now at.0 rows.now)) }
    ensures fails { IfErr result (FirstFalse (apart_obligations solid.now at.0 rows.now)) }
{
    match before.first_shared(rows) {
        Some(vertex) => Err(at_vertex(solid, Rule::Shared, vertex)),
        None => Ok(()),
    }
}
