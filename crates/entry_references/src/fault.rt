//! Why references aren't given.

use iges_base::NoMemory;
use std::alloc::{AllocError, AllocFailed};

/// Why the references of an entry aren't given. Of the first three the first that holds is reported.
#[derive(Clone, Copy)]
pub enum RefFault {
    /// The type of the entry isn't one that extraction follows.
    Unlisted,
    /// The values of the record aren't laid out as its type has them.
    Layout,
    /// A pointer of the entry names no entry.
    Dangling,
    /// Memory ran out.
    NoMemory,
}

/// Why a solid isn't extracted.
#[derive(Clone, Copy)]
pub enum ExtractReason {
    /// The number names no solid.
    NotSolid,
    /// The type of the entity isn't one that extraction follows.
    Unlisted,
    /// The values of the entity's record aren't laid out as its type has them.
    Layout,
    /// A pointer of the entity names no entry.
    Dangling,
}

impl From<NoMemory> for RefFault {
    ghost use Rattle.std.specs.Prelude.{◌≡◌};
    ghost use Rattle.entry_references.specs.declared.fault.RefFault.TheVariants.{NoMemory as OutOfMemory};

    ghost from_gives = { λ _ e. e ≡ OutOfMemory };

    fn from(_: NoMemory) -> RefFault {
        RefFault::NoMemory
    }
}

impl From<AllocError> for RefFault {
    ghost use Rattle.std.specs.Prelude.{◌≡◌};
    ghost use Rattle.entry_references.specs.declared.fault.RefFault.TheVariants.{NoMemory as OutOfMemory};

    ghost from_gives = { λ _ e. e ≡ OutOfMemory };

    fn from(_: AllocError) -> RefFault {
        RefFault::NoMemory
    }
}

impl<T: Drop> From<AllocFailed<T>> for RefFault {
    ghost use Rattle.std.specs.Prelude.{◌≡◌};
    ghost use Rattle.entry_references.specs.declared.fault.RefFault.TheVariants.{NoMemory as OutOfMemory};

    ghost from_gives = { λ _ e. e ≡ OutOfMemory };

    fn from(_: AllocFailed<T>) -> RefFault {
        RefFault::NoMemory
    }
}
