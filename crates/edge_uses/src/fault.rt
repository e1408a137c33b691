//! Why rows can't be paired.

use iges_base::NoMemory;
use solid_data::EdgeId;

/// Why the rows of a shell weren't paired.
#[derive(Clone, Copy)]
pub enum PairFault {
    /// The least edge that hasn't exactly two rows, one along it and one against it.
    Unpaired(EdgeId),
    /// Memory ran out.
    NoMemory,
}

impl From<NoMemory> for PairFault {
    ghost use Rattle.std.specs.Prelude.{◌≡◌};
    ghost use Rattle.edge_uses.specs.declared.fault.PairFault.TheVariants.{NoMemory as OutOfMemory};

    ghost from_gives = { λ _ e. e ≡ OutOfMemory };

    fn from(_: NoMemory) -> PairFault {
        PairFault::NoMemory
    }
}
