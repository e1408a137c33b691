//! That one answer is owed, when a layout has a yes, and that a solid without flags has a no.

ghost use Rattle.repair_commands.specs.Laws.{InLayoutIsTold, OneAnswerIsOwed, SomeAnswerIsOwed};
ghost use Rattle.repair_commands.specs.SolidLaws.{OneReorientAnswer, SomeReorientAnswer, UnorientedIsNo};

/// For given words and bytes at most one answer is owed, and one text with it.
pub fn one_answer()
    ensures { OneAnswerIsOwed }
{}

/// For all words and bytes some answer is owed.
pub fn some_answer()
    ensures { SomeAnswerIsOwed }
{}

/// Of a layout yes is answered exactly where nothing is changed.
pub fn in_layout_is_told()
    ensures { InLayoutIsTold }
{}

/// One answer is owed of reorienting a solid, and one text but for which rings it names; in a file within its limits some
/// answer is owed.
pub fn one_reorient_answer()
    ensures one { OneReorientAnswer }
    ensures some { SomeReorientAnswer }
{}

/// Of a solid that has no flags no is answered: what `orient` owes of it is never an orientation without a ring.
pub fn unoriented_is_no()
    ensures { UnorientedIsNo }
{}
