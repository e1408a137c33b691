//! What flags and rings say together, and that bytes spell one line.

ghost use Rattle.std.specs.Prelude.{◌≡◌, ℕ, List};
ghost use Rattle.orient_certificate.specs.declared.line.OrientLine.{OrientLine as AnyLine};
ghost use Rattle.orient_certificate.specs.Laws.{RingsRefuseFlags, FlagsOrRing};
ghost use Rattle.orient_certificate.specs.Line.{IsSpelled};

/// Where each edge has two rows, an odd ring means that no flags fit.
pub fn rings_refuse_flags()
    ensures { RingsRefuseFlags }
{}

/// Where each edge has two rows and each face is reached, exactly one list of flags fits, or there is an odd ring.
pub fn flags_or_ring()
    ensures { FlagsOrRing }
{}

/// Bytes spell at most one line.
pub fn one_orient_line()
    ensures { (bytes : List ℕ) (l m : AnyLine) → IsSpelled bytes l → IsSpelled bytes m → l ≡ m }
{}
