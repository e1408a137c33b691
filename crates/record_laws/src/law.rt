//! Laws of what is told where a rule on the records of a solid fails.

ghost use Rattle.record_laws.specs.Breaks.{BadValuesBreak};
ghost use Rattle.record_laws.specs.Lying.{PathsLeadToFalse};

/// Where a rule on the records of a solid fails first, the value that is named is one that breaks it.
pub fn bad_values_break()
    ensures { BadValuesBreak }
{}

/// Where a rule on the records of a solid fails first, the path to the first obligation that bears its name is the path
/// on which it lies.
pub fn paths_lead_to_false()
    ensures { PathsLeadToFalse }
{}
