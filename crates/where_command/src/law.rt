//! That at most one answer is owed, that told remedies pass, and that yes means closed.

ghost use Rattle.where_command.specs.Laws.{ClosedIsTold, OneAnswerIsOwed, ToldRemediesPass};

/// For given words and bytes at most one answer is owed, and one text with it if the same remedies are told.
pub fn one_answer()
    ensures { OneAnswerIsOwed }
{}

/// Each remedy that is told fits and passes.
pub fn told_remedies_pass()
    ensures { ToldRemediesPass }
{}

/// Of a solid yes is answered exactly where it is closed.
pub fn closed_is_told()
    ensures { ClosedIsTold }
{}
