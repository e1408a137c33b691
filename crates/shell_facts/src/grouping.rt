//! Numbers grouped by the least of each group.

ghost use Rattle.std.specs.Prelude.{◌≡◌, ◌<◌, ◌^◌, IfOk, length};
ghost use Rattle.shell_components.specs.Trees.{AreTrees};

use iges_base::NoMemory;
use shell_components::{Groups, grouped};
use solid_data::Span;
use std::alloc::Global;

/// The places in a list by the numbers there, as the faces of each part, or the rows of each fan, which is named by its
/// least one.
pub(crate) fn by_least(alloc: Global, leasts: &[u32]) -> Result<Groups, NoMemory>
    requires low { AreTrees leasts.now }
    requires few { length leasts.now < 2 ^ 32 }
    ensures { IfOk result (λ groups. groups ≡ leasts.now) }
{
    let numbers = Vec::from_slice(alloc, leasts)?;
    let range = Span {
        least: 0,
        count: leasts.len(),
    };
    grouped(alloc, numbers, range)
}
