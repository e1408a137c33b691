//! Why a solid isn't extracted.

use entry_references::ExtractReason;
use iges_base::{EntryNo, NoMemory};

/// An entity that has a fault, and its fault.
#[derive(Clone, Copy)]
pub struct Refusal {
    pub entity: EntryNo,
    pub reason: ExtractReason,
}

/// Why a solid isn't extracted.
#[derive(Clone, Copy)]
pub enum ExtractFault {
    /// The entity for which it isn't, and why: of the entities that are reached and have a fault the one with the least
    /// number.
    Refused {
        entity: EntryNo,
        reason: ExtractReason,
    },
    /// Memory ran out.
    NoMemory,
}

impl From<NoMemory> for ExtractFault {
    ghost use Rattle.std.specs.Prelude.{◌≡◌};
    ghost use Rattle.solid_extract.specs.declared.fault.ExtractFault.TheVariants.{NoMemory as OutOfMemory};

    ghost from_gives = { λ _ e. e ≡ OutOfMemory };

    fn from(_: NoMemory) -> ExtractFault {
        ExtractFault::NoMemory
    }
}
