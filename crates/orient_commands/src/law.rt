//! What holds of orientations by their definition.

ghost use Rattle.orient_commands.specs.Laws.{OneOrientation, OneVerifying, OrientationIsAccepted, SomeOrientation, SomeVerifying, FittingFlagsClose};

/// Of orienting a solid one answer is owed, and one text line by line, but that two lines of one shell may name two rings.
/// Of verifying a text one answer and one text are owed.
pub fn one_orient_answer()
    ensures orienting { OneOrientation }
    ensures verifying { OneVerifying }
{}

/// An orientation that is owed of a solid is accepted when it is verified, rings included, unless it is larger than the
/// limit.
pub fn orientations_are_accepted()
    ensures { OrientationIsAccepted }
{}

/// In a file within its limits some answer is owed of orienting any solid, and in any file some answer of verifying any
/// text.
pub fn some_orient_answer()
    ensures orienting { SomeOrientation }
    ensures verifying { SomeVerifying }
{}

/// Where COUNT and REACH hold of each shell, and flags fit, the solid with these flags in place of its faces' is closed if
/// it keeps JOIN, LINK and APART: with these flags every edge is used in opposite directions, and every face is reached.
pub fn fitting_flags_close()
    ensures { FittingFlagsClose }
{}
