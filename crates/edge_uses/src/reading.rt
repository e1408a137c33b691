//! The rows of a shell of a solid.

ghost use Rattle.std.specs.Prelude.{◌≡◌, ◌<◌, length, slice_get, IfOk};
ghost use Rattle.edge_uses.specs.ShellRows.{rows_of};

use crate::table::Rows;
use iges_base::NoMemory;
use solid_data::{ShellAt, Solid};
use std::alloc::Global;

/// The rows of a shell, by file order, with what follows each, and what occurs in the shell.
pub fn rows(alloc: Global, solid: &Solid, shell: ShellAt) -> Result<Rows, NoMemory>
    requires { shell.0 < length solid.now.shells }
    ensures { IfOk result (λ r. r ≡ rows_of solid.now (slice_get solid.now.shells shell.0)) }
{
    let shell = solid.shell(shell).unwrap();
    Rows::of_shell(alloc, solid, shell)
}
