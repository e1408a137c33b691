//! Why no certificate was made.

use iges_base::NoMemory;
use open_certificate::OpenFailing;

/// Why no certificate of an open shell was made.
#[derive(Clone, Copy)]
pub enum OpenFault {
    /// The shell isn't sound: the first rule that fails, and where.
    Fails(OpenFailing),
    /// Memory ran out.
    NoMemory,
}

impl From<OpenFailing> for OpenFault {
    ghost use Rattle.std.specs.Prelude.{◌≡◌};
    ghost use Rattle.open_shells.specs.declared.fault.OpenFault.TheVariants.{Fails};

    ghost from_gives = { λ x e. e ≡ Fails x };

    fn from(failing: OpenFailing) -> OpenFault {
        OpenFault::Fails(failing)
    }
}

impl From<NoMemory> for OpenFault {
    ghost use Rattle.std.specs.Prelude.{◌≡◌};
    ghost use Rattle.open_shells.specs.declared.fault.OpenFault.TheVariants.{NoMemory as OutOfMemory};

    ghost from_gives = { λ _ e. e ≡ OutOfMemory };

    fn from(_: NoMemory) -> OpenFault {
        OpenFault::NoMemory
    }
}
