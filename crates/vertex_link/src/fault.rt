//! Why vertices aren't linked.

use iges_base::NoMemory;
use solid_data::VertexId;

/// Why a shell has no corner for each of its vertices.
#[derive(Clone, Copy)]
pub enum LinkFault {
    /// The least vertex that has neither one cycle of rows and no loop without an edge, nor no row
    /// and exactly one loop without an edge.
    Broken(VertexId),
    /// Memory ran out.
    NoMemory,
}

impl From<NoMemory> for LinkFault {
    ghost use Rattle.std.specs.Prelude.{◌≡◌};
    ghost use Rattle.vertex_link.specs.declared.fault.LinkFault.TheVariants.{NoMemory as OutOfMemory};

    ghost from_gives = { λ _ e. e ≡ OutOfMemory };

    fn from(_: NoMemory) -> LinkFault {
        LinkFault::NoMemory
    }
}
