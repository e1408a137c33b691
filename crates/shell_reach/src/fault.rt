//! Why faces aren't reached.

use iges_base::NoMemory;
use solid_data::FaceAt;

/// Why the faces of a shell aren't reached.
#[derive(Clone, Copy)]
pub enum ReachFault {
    /// The least face to which no chain of faces leads from the first, each two neighbours holding
    /// a row and its mate.
    Unreached(FaceAt),
    /// Memory ran out.
    NoMemory,
}

impl From<NoMemory> for ReachFault {
    ghost use Rattle.std.specs.Prelude.{◌≡◌};
    ghost use Rattle.shell_reach.specs.declared.fault.ReachFault.TheVariants.{NoMemory as OutOfMemory};

    ghost from_gives = { λ _ e. e ≡ OutOfMemory };

    fn from(_: NoMemory) -> ReachFault {
        ReachFault::NoMemory
    }
}
