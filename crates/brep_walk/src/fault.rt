//! Why a walk ended without a solid.

use iges_base::NoMemory;
use solid_data::Failing;

/// Why a walk ended without a solid.
#[derive(Clone, Copy)]
pub enum WalkFault {
    /// The first obligation on the records' places that doesn't hold, depth first.
    Fails(Failing),
    /// Memory ran out.
    NoMemory,
}

impl From<Failing> for WalkFault {
    ghost use Rattle.std.specs.Prelude.{◌≡◌};
    ghost use Rattle.brep_walk.specs.declared.fault.WalkFault.TheVariants.{Fails};

    ghost from_gives = { λ x e. e ≡ Fails x };

    fn from(failing: Failing) -> WalkFault {
        WalkFault::Fails(failing)
    }
}

impl From<NoMemory> for WalkFault {
    ghost use Rattle.std.specs.Prelude.{◌≡◌};
    ghost use Rattle.brep_walk.specs.declared.fault.WalkFault.TheVariants.{NoMemory as OutOfMemory};

    ghost from_gives = { λ _ e. e ≡ OutOfMemory };

    fn from(_: NoMemory) -> WalkFault {
        WalkFault::NoMemory
    }
}
