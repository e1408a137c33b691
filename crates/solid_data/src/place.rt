//! Places of records.

ghost use Rattle.std.specs.Prelude.{◌≡◌};

use crate::verdict::{Failing, Rule};
use iges_base::EntryNo;

/// A place that may name an entry: an item of an entity's record, from 1, or 0 for the entity itself.
#[derive(Clone, Copy)]
pub struct Place {
    pub entity: EntryNo,
    pub item: u32,
}

impl Place {
    /// That a rule fails here.
    pub fn fails(self, rule: Rule) -> Failing
        ensures { result ≡ record { rule = rule; entity = self.entity; place = self.item } }
    {
        Failing {
            rule,
            entity: self.entity,
            place: self.item,
        }
    }
}
