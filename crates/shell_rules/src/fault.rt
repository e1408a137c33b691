//! Why a solid does not pass.

use iges_base::NoMemory;
use solid_data::Failing;

/// Why a solid does not pass what is judged of it.
#[derive(Clone, Copy)]
pub enum CheckFault {
    /// The first rule that fails, and where.
    Fails(Failing),
    /// Memory ran out.
    NoMemory,
}

impl From<Failing> for CheckFault {
    ghost use Rattle.std.specs.Prelude.{◌≡◌};
    ghost use Rattle.shell_rules.specs.declared.fault.CheckFault.TheVariants.{Fails};

    ghost from_gives = { λ x e. e ≡ Fails x };

    fn from(failing: Failing) -> CheckFault {
        CheckFault::Fails(failing)
    }
}

impl From<NoMemory> for CheckFault {
    ghost use Rattle.std.specs.Prelude.{◌≡◌};
    ghost use Rattle.shell_rules.specs.declared.fault.CheckFault.TheVariants.{NoMemory as OutOfMemory};

    ghost from_gives = { λ _ e. e ≡ OutOfMemory };

    fn from(_: NoMemory) -> CheckFault {
        CheckFault::NoMemory
    }
}
