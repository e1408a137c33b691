//! What is chosen, of which lists.

ghost use Rattle.flag_choice.specs.Laws.{OneChoice, OwnAreChosen, SuitedIsSewn, SuitOrients, TwoListsOrient};

/// Under the flags that suit a shell the two uses of each edge run in opposite directions, and under no other list but
/// its reverse; they are the faces' own flags, where the uses do so under those.
pub fn two_lists_orient()
    ensures orient { SuitOrients }
    ensures two { TwoListsOrient }
    ensures own { OwnAreChosen }
{}

/// A solid has one choice of flags.
pub fn one_choice()
    ensures { OneChoice }
{}

/// With flags that suit a shell in place of its faces' PAIR and REACH hold of it.
pub fn suited_is_sewn()
    ensures { SuitedIsSewn }
{}
