//! Why a solid isn't compacted.

use brep_walk::WalkFault;
use entry_references::ExtractReason;
use iges_base::{EntryNo, NoMemory};
use solid_data::Failing;
use solid_extract::ExtractFault;

/// Why a solid isn't compacted.
#[derive(Clone, Copy)]
pub enum CompactFault {
    /// The entity for which the solid isn't extracted, and why.
    Refused {
        entity: EntryNo,
        reason: ExtractReason,
    },
    /// The first obligation on the records' places that doesn't hold, depth first.
    Fails(Failing),
    /// Memory ran out.
    NoMemory,
}

impl From<NoMemory> for CompactFault {
    ghost use Rattle.std.specs.Prelude.{◌≡◌};
    ghost use Rattle.list_compact.specs.declared.fault.CompactFault.TheVariants.{NoMemory as OutOfMemory};

    ghost from_gives = { λ _ e. e ≡ OutOfMemory };

    fn from(_: NoMemory) -> CompactFault {
        CompactFault::NoMemory
    }
}

impl From<ExtractFault> for CompactFault {
    ghost use Rattle.list_compact.specs.Faults.{IsExtraction};

    ghost from_gives = { IsExtraction };

    fn from(fault: ExtractFault) -> CompactFault {
        match fault {
            ExtractFault::Refused { entity, reason } => CompactFault::Refused { entity, reason },
            ExtractFault::NoMemory => CompactFault::NoMemory,
        }
    }
}

impl From<WalkFault> for CompactFault {
    ghost use Rattle.list_compact.specs.Faults.{IsWalk};

    ghost from_gives = { IsWalk };

    fn from(fault: WalkFault) -> CompactFault {
        match fault {
            WalkFault::Fails(failing) => CompactFault::Fails(failing),
            WalkFault::NoMemory => CompactFault::NoMemory,
        }
    }
}
