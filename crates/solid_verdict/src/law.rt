//! What holds of closed solids and verdicts by their definition.

ghost use Rattle.std.specs.Prelude.{ℕ, ◌≡◌};
ghost use Rattle.iges_params.specs.Contents.{Contents};
ghost use Rattle.solid_verdict.specs.Closed.{IsVerdictOn, ClosedIsAllHold};
ghost use Rattle.solid_data.specs.declared.verdict.Verdict.{Verdict as Word};

/// A solid is closed exactly where all obligations of its list hold, and it has exactly one verdict.
pub fn one_verdict()
    ensures all { ClosedIsAllHold }
    ensures one { (f : Contents) (n : ℕ) (a b : Word) → IsVerdictOn f n a → IsVerdictOn f n b
        → a ≡ b }
    ensures always { (f : Contents) (n : ℕ) → (verdict : Word) × IsVerdictOn f n verdict }
{}
