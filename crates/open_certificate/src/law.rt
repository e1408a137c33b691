//! What holds of open shells and their certificates by their definition.

ghost use Rattle.std.specs.Prelude.{ℕ, List, ◌≡◌, ◌⊎◌};
ghost use Rattle.solid_data.specs.SolidData.{SolidData};
ghost use Rattle.cert_text.specs.declared.fault.Illegal.{Illegal as Fault};
ghost use Rattle.open_certificate.specs.Line.{OpenLine, IsSpelled};
ghost use Rattle.open_certificate.specs.Legal.{IsOpenLegal, IsOpenFirstBad};
ghost use Rattle.open_certificate.specs.Obligations.{open_obligations, AllHold, FirstFalse};
ghost use Rattle.open_certificate.specs.Laws.{AcceptedIsSound, BordersAreCycles, ClosedIsSound};
ghost use Rattle.open_certificate.specs.declared.verdict.OpenFailing.{OpenFailing as Named};

/// Bytes spell at most one line.
pub fn one_line()
    ensures { (bytes : List ℕ) (l m : OpenLine) → IsSpelled bytes l → IsSpelled bytes m → l ≡ m }
{}

/// Whatever the lines are, either they are legal or one of them is the first bad one; that is one line alone, and legal lines
/// have none.
pub fn legal_or_first_bad()
    ensures none { (s : SolidData) (lines : List (List ℕ)) (bad : Fault) → IsOpenLegal s lines
        → ¬ IsOpenFirstBad s lines bad }
    ensures one { (s : SolidData) (lines : List (List ℕ)) (x y : Fault) → IsOpenFirstBad s lines x
        → IsOpenFirstBad s lines y → x ≡ y }
    ensures always { (s : SolidData) (lines : List (List ℕ))
        → IsOpenLegal s lines ⊎ ((bad : Fault) × IsOpenFirstBad s lines bad) }
{}

/// Either all obligations hold or one of them is the first false one; that is one alone, and where all hold there is none.
pub fn one_first_false()
    ensures none { (s : SolidData) (x : Named) → AllHold (open_obligations s)
        → ¬ FirstFalse (open_obligations s) x }
    ensures one { (s : SolidData) (x y : Named) → FirstFalse (open_obligations s) x
        → FirstFalse (open_obligations s) y → x ≡ y }
    ensures always { (s : SolidData) → AllHold (open_obligations s)
        ⊎ ((x : Named) × FirstFalse (open_obligations s) x) }
{}

/// Soundness: whatever made a certificate, the open shell that it is accepted for is sound.
pub fn soundness()
    ensures { AcceptedIsSound }
{}

/// The border lines of legal lines are cycles of border rows, and hold each border row of the shell once.
pub fn borders_are_cycles()
    ensures { BordersAreCycles }
{}

/// A closed shell of a solid is sound as an open one, and has no border row.
pub fn closed_is_sound()
    ensures { ClosedIsSound }
{}
