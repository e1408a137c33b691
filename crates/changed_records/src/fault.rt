//! Why no file is made of a change.

use iges_base::NoMemory as OutOfMemory;

/// Why no file is made of a change.
#[derive(Clone, Copy, PartialEq, Eq)]
pub enum ChangeFault {
    /// The change is not one of this solid, or the file would have too many entries or values.
    Unfit,
    /// Memory ran out.
    NoMemory,
}

impl From<OutOfMemory> for ChangeFault {
    ghost use Rattle.std.specs.Prelude.{◌≡◌};
    ghost use Rattle.changed_records.specs.declared.fault.ChangeFault.TheVariants.{NoMemory};

    ghost from_gives = { λ _ e. e ≡ NoMemory };

    fn from(_: OutOfMemory) -> ChangeFault {
        ChangeFault::NoMemory
    }
}
