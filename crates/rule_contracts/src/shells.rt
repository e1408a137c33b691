//! Rows, pairs and vertices of shells, and changes of them.

ghost use Rattle.change_passes.specs.Passes.{Passes};
ghost use Rattle.edge_uses.specs.Faults.{IsPairFault};
ghost use Rattle.edge_uses.specs.RowRelations.{IsPaired};
ghost use Rattle.edge_uses.specs.ShellRows.{EndsMeet, rows_of};
ghost use Rattle.std.specs.List.{AllByRecursion};
ghost use Rattle.std.specs.Prelude.{◌≡◌, ◌<◌, IfErr, IfOk, IsTrue, length, slice_get};

use change_passes::passes;
use edge_uses::{PairFault, Paired, Row, Rows, pair, rows};
use iges_base::NoMemory;
use shell_change::Change;
use solid_data::{RowId, ShellAt, Solid};
use std::alloc::Global;

/// A use of an edge in a shell, by its number.
pub fn row_of_shell(
    alloc: Global,
    solid: &Solid,
    shell: ShellAt,
    number: RowId,
) -> Result<Option<Row>, NoMemory>
    requires { shell.0 < length solid.now.shells }
    ensures { IfOk result (λ row. row
        ≡ slice_get (rows_of solid.now (slice_get solid.now.shells shell.0)).rows number.0) }
{
    Ok(rows(alloc, solid, shell)?.row(number))
}

/// The rows with their mates, where each edge has two rows, one along it and one against it.
pub fn paired_edges(alloc: Global, rows: &Rows) -> Result<Paired<'_>, PairFault>
    requires { EndsMeet rows.now }
    ensures paired { IfOk result (λ _. AllByRecursion (IsPaired rows.now) rows.now.edges) }
    ensures fault { IfErr result (λ fault. IsPairFault rows.now fault) }
{
    match pair(alloc, rows) {
        Ok(paired) => Ok(paired),
        Err(PairFault::Unpaired(edge)) => Err(PairFault::Unpaired(edge)),
        Err(PairFault::NoMemory) => Err(PairFault::NoMemory),
    }
}

/// Whether a changed shell is closed, and apart from the shells before it.
pub fn closes(alloc: Global, solid: &Solid, change: &Change) -> Result<bool, NoMemory>
    ensures { IfOk result (λ closed. IsTrue closed → Passes solid.now change.now) }
{
    passes(alloc, solid, change)
}
