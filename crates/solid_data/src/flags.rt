//! Flags of edge uses, faces and shells.

ghost use Rattle.std.specs.Prelude.{◌≡◌};
ghost use Rattle.solid_data.specs.SolidData.{same_flag};

/// Whether two flags are the same.
pub fn same_flags(a: bool, b: bool) -> bool
    ensures { result ≡ same_flag a b }
{
    if a { b } else { !b }
}
