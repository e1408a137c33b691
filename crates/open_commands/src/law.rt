//! What holds of open shells of files and of their certificates by their definition.

ghost use Rattle.std.specs.Prelude.{ℕ, List, ◌≡◌};
ghost use Rattle.command_replies.specs.declared.answer.Answer.{Answer};
ghost use Rattle.iges_params.specs.Contents.{Contents};
ghost use Rattle.open_commands.specs.Due.{OfOpen, OfOpenVerify};
ghost use Rattle.open_commands.specs.Laws.{AcceptedIsChecked, SoundExactlyWhereAccepted, BordersAreCycles, OneOpenAnswer, SomeOpenAnswer, OneVerifyAnswer, SomeVerifyAnswer};
ghost use Rattle.open_commands.specs.Verdict.{OpenVerdict, IsOpenVerdict};

/// An open shell of a file has exactly one verdict.
pub fn one_verdict()
    ensures one { (f : Contents) (n : ℕ) (a b : OpenVerdict) → IsOpenVerdict f n a
        → IsOpenVerdict f n b → a ≡ b }
    ensures always { (f : Contents) (n : ℕ) → (verdict : OpenVerdict) × IsOpenVerdict f n verdict }
{}

/// Soundness and completeness: in a file within its limits, an open shell is sound exactly where some certificate that names
/// it is accepted.
pub fn sound_exactly_where_accepted()
    ensures { SoundExactlyWhereAccepted }
{}

/// The border lines of an accepted certificate are cycles of border rows, and hold each border row of the shell once.
pub fn borders_are_cycles()
    ensures { BordersAreCycles }
{}

/// A certificate is accepted exactly where it opens with the shell's number, the places hold, the loops join, and the lines
/// from line 2 on are legal.
pub fn accepted_is_checked()
    ensures { AcceptedIsChecked }
{}

/// Of certifying an open shell one answer is owed, and one text where the answer is No; of verifying a certificate one
/// answer and one text.
pub fn one_open_answer()
    ensures certify { OneOpenAnswer }
    ensures verify { OneVerifyAnswer }
{}

/// Of certifying an open shell of a file within its limits, and of verifying a certificate, some answer and text are owed.
pub fn some_open_answer()
    ensures certify { SomeOpenAnswer }
    ensures verify { SomeVerifyAnswer }
{}
