//! Why a shell has no orientation to speak of.

use iges_base::{EntryNo, NoMemory};

/// What the edges and the faces of a shell keep before flags are sought.
#[derive(Clone, Copy)]
pub enum OrientRule {
    /// Exactly two rows have the edge.
    Count,
    /// A chain of faces leads from the shell's first face to this one, each two neighbours holding a row and its partner.
    Reach,
}

impl OrientRule {
    ghost use Rattle.std.specs.Prelude.{◌≡◌};
    ghost use Rattle.orient_certificate.specs.Outcome.{rule_name};

    /// The word that is printed for the rule.
    pub fn name(self) -> &'static str
        ensures { result.now ≡ rule_name self }
    {
        match self {
            OrientRule::Count => "COUNT",
            OrientRule::Reach => "REACH",
        }
    }
}

/// A rule that fails, the entity, and the item of that entity's record, from 1, or 0 for the entity itself.
#[derive(Clone, Copy)]
pub struct OrientFailing {
    pub rule: OrientRule,
    pub entity: EntryNo,
    pub place: u32,
}

/// Why neither flags nor a ring were given.
#[derive(Clone, Copy)]
pub enum OrientFault {
    /// The first rule that fails, and where: COUNT over the edges that occur in the shell, by number, and then REACH over
    /// its faces.
    Fails(OrientFailing),
    /// Memory ran out.
    NoMemory,
}

impl From<OrientFailing> for OrientFault {
    ghost use Rattle.std.specs.Prelude.{◌≡◌};
    ghost use Rattle.orient_certificate.specs.declared.fault.OrientFault.TheVariants.{Fails};

    ghost from_gives = { λ x e. e ≡ Fails x };

    fn from(failing: OrientFailing) -> OrientFault {
        OrientFault::Fails(failing)
    }
}

impl From<NoMemory> for OrientFault {
    ghost use Rattle.std.specs.Prelude.{◌≡◌};
    ghost use Rattle.orient_certificate.specs.declared.fault.OrientFault.TheVariants.{NoMemory as OutOfMemory};

    ghost from_gives = { λ _ e. e ≡ OutOfMemory };

    fn from(_: NoMemory) -> OrientFault {
        OrientFault::NoMemory
    }
}
