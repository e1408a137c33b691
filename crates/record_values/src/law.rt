//! A law of misfits.

ghost use Rattle.record_values.specs.Begins.{MisfitsAreFirst};

/// The first misfit of a record is the first value with which no record of the kind goes on.
pub fn misfits_are_first()
    ensures { MisfitsAreFirst }
{}
