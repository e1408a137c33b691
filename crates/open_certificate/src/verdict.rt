//! The rules of a sound open shell, and where one fails.

ghost use Rattle.std.specs.Prelude.{◌≡◌};
ghost use Rattle.open_certificate.specs.Obligations.{rule_name};

use iges_base::EntryNo;

/// What a sound open shell keeps.
#[derive(Clone, Copy)]
pub enum OpenRule {
    /// In a loop each use ends where the next one starts.
    Join,
    /// One use has the edge; or two have it, one along it and one against it.
    Edge,
    /// A chain of faces leads from the shell's first face to this one.
    Reach,
    /// The uses at the vertex make one cycle or one path.
    Fan,
}

impl OpenRule {
    /// The word that is printed for the rule.
    pub fn name(self) -> &'static str
        ensures { result.now ≡ rule_name self }
    {
        match self {
            OpenRule::Join => "JOIN",
            OpenRule::Edge => "EDGE",
            OpenRule::Reach => "REACH",
            OpenRule::Fan => "FAN",
        }
    }
}

/// A rule that fails, the entity, and the item of that entity's record, from 1, or 0 for the entity itself.
#[derive(Clone, Copy)]
pub struct OpenFailing {
    pub rule: OpenRule,
    pub entity: EntryNo,
    pub place: u32,
}
