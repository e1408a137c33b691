//! Why a text isn't taken as an orientation.

use cert_text::Illegal;
use iges_base::NoMemory as OutOfMemory;

/// Why a text isn't taken as an orientation.
#[derive(Clone, Copy)]
pub enum TextFault {
    /// This is its first bad line.
    Bad(Illegal),
    /// Memory ran out.
    NoMemory,
}

impl From<Illegal> for TextFault {
    ghost use Rattle.std.specs.Prelude.{◌≡◌};
    ghost use Rattle.orient_commands.specs.declared.fault.TextFault.TheVariants.{Bad};

    ghost from_gives = { λ x e. e ≡ Bad x };

    fn from(bad: Illegal) -> TextFault {
        TextFault::Bad(bad)
    }
}

impl From<OutOfMemory> for TextFault {
    ghost use Rattle.std.specs.Prelude.{◌≡◌};
    ghost use Rattle.orient_commands.specs.declared.fault.TextFault.TheVariants.{NoMemory};

    ghost from_gives = { λ _ e. e ≡ NoMemory };

    fn from(_: OutOfMemory) -> TextFault {
        TextFault::NoMemory
    }
}
