//! What holds of the lines of certificates by their definition.

ghost use Rattle.std.specs.Prelude.{ℕ, List, ◌≡◌, ◌⊎◌};
ghost use Rattle.cert_lines.specs.Line.{CertLine, IsSpelled, IsLine, IsLong, IsMisspelt};
ghost use Rattle.cert_lines.specs.Opening.{Opens, IsBadOpening};
ghost use Rattle.cert_lines.specs.declared.version.Version.{Version as Edition};
ghost use Rattle.cert_text.specs.declared.fault.Illegal.{Illegal as Fault};

/// Bytes spell at most one line.
pub fn one_line()
    ensures { (bytes : List ℕ) (l m : CertLine) → IsSpelled bytes l → IsSpelled bytes m → l ≡ m }
{}

/// Bytes are a line, or are too long, or spell no line, and only one of these, whatever they are and however many may come
/// in a line.
pub fn lines_are_decided()
    ensures always { (limit : ℕ) (bytes : List ℕ)
        → ((line : CertLine) × IsLine limit bytes line)
        ⊎ (IsLong limit bytes ⊎ IsMisspelt limit bytes) }
    ensures line { (limit : ℕ) (bytes : List ℕ) (line : CertLine) → IsLine limit bytes line
        → ¬ IsLong limit bytes × ¬ IsMisspelt limit bytes }
    ensures long { (limit : ℕ) (bytes : List ℕ) → IsLong limit bytes → ¬ IsMisspelt limit bytes }
{}

/// A certificate opens with the head of one version and one solid, in one way, or has one first bad line among its first two,
/// and never both.
pub fn one_opening()
    ensures opens { (c : List ℕ) (v w : Edition) (n m : ℕ) (r t : List (List ℕ)) → Opens c v n r
        → Opens c w m t → (v ≡ w) × (n ≡ m) × (r ≡ t) }
    ensures none { (c : List ℕ) (v : Edition) (n : ℕ) (r : List (List ℕ)) (bad : Fault)
        → Opens c v n r → ¬ IsBadOpening c bad }
    ensures one { (c : List ℕ) (x y : Fault) → IsBadOpening c x → IsBadOpening c y → x ≡ y }
    ensures always { (c : List ℕ) → ((v : Edition) × (n : ℕ) × (r : List (List ℕ)) × Opens c v n r)
        ⊎ ((bad : Fault) × IsBadOpening c bad) }
{}
