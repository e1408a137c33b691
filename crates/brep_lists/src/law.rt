//! Laws of records.

ghost use Rattle.brep_lists.specs.OwnValues.{RecordsAreDecided};
ghost use Rattle.brep_lists.specs.Record.{FitsOnlyRead};

/// A record has no other items than those that are in the places of its layout.
pub fn items_are_one()
    ensures { FitsOnlyRead }
{}

/// Whether a record fits a kind of entity can be tested.
pub fn records_are_decided()
    ensures { RecordsAreDecided }
{}
