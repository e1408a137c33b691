//! Some answer is always owed.

ghost use Rattle.where_laws.specs.SomeAnswer.{SomeAnswerIsOwed};

/// Some answer and text are owed, whatever the words and the bytes are.
pub fn something_is_due()
    ensures { SomeAnswerIsOwed }
{}
