//! What holds of certificates by their definition.

ghost use Rattle.std.specs.Prelude.{ℕ, List, ◌≡◌, ◌⊎◌};
ghost use Rattle.solid_data.specs.SolidData.{SolidData};
ghost use Rattle.topo_certificate.specs.Legal.{IsLegal, IsFirstBad, IsPartBad};
ghost use Rattle.cert_lines.specs.declared.version.Version.{Version as Edition};
ghost use Rattle.cert_text.specs.declared.fault.Illegal.{Illegal as Fault};

/// Whatever the lines are, either they are legal or one of them is the first bad one; that is one line alone, and legal lines
/// have none.
pub fn legal_or_first_bad()
    ensures none { (v : Edition) (s : SolidData) (first : ℕ) (lines : List (List ℕ)) (bad : Fault)
        → IsLegal v s lines → ¬ IsFirstBad v s first lines bad }
    ensures one { (v : Edition) (s : SolidData) (first : ℕ) (lines : List (List ℕ)) (x y : Fault)
        → IsFirstBad v s first lines x → IsFirstBad v s first lines y → x ≡ y }
    ensures always { (v : Edition) (s : SolidData) (first : ℕ) (lines : List (List ℕ))
        → IsLegal v s lines ⊎ ((bad : Fault) × IsFirstBad v s first lines bad) }
{}

/// In a part of a book too there is one first bad line at most.
pub fn one_bad_in_part()
    ensures { (v : Edition) (s : SolidData) (first : ℕ) (lines : List (List ℕ)) (x y : Fault)
        → IsPartBad v s first lines x → IsPartBad v s first lines y → x ≡ y }
{}
