//! Laws of places and of the solid that records describe.

ghost use Rattle.std.specs.Prelude.{ℕ, ◌≡◌, ◌⊎◌};
ghost use Rattle.iges_params.specs.Contents.{Contents};
ghost use Rattle.brep_walk.specs.OpenPlaces.{open_places, shell_solid_of};
ghost use Rattle.brep_walk.specs.Places.{places};
ghost use Rattle.brep_walk.specs.SolidOf.{solid_of};
ghost use Rattle.iges_params.specs.Limits.{FitsLimits};
ghost use Rattle.solid_data.specs.Numbering.{IsNumberedSolid};
ghost use Rattle.solid_data.specs.Obligations.{AllHold, FirstFalse};
ghost use Rattle.solid_data.specs.declared.verdict.Failing.{Failing as Named};

/// The places of a solid all hold, or there is exactly one first false obligation, and never both.
pub fn places_are_definite()
    ensures one { (f : Contents) (n : ℕ) (x y : Named) → FirstFalse (places f n) x
        → FirstFalse (places f n) y → x ≡ y }
    ensures none { (f : Contents) (n : ℕ) (x : Named) → FirstFalse (places f n) x
        → ¬ AllHold (places f n) }
    ensures always { (f : Contents) (n : ℕ) → AllHold (places f n)
        ⊎ ((x : Named) × FirstFalse (places f n) x) }
{}

/// The solid of a file within its limits, whose places hold, is numbered by first appearance, and keeps what solids keep.
pub fn solid_is_numbered()
    ensures { (f : Contents) (n : ℕ) → FitsLimits f → AllHold (places f n)
        → IsNumberedSolid (solid_of f n) }
{}

/// The places of a shell that may be open all hold, or there is exactly one first false obligation, and never both.
pub fn open_places_are_definite()
    ensures one { (f : Contents) (n : ℕ) (x y : Named) → FirstFalse (open_places f n) x
        → FirstFalse (open_places f n) y → x ≡ y }
    ensures none { (f : Contents) (n : ℕ) (x : Named) → FirstFalse (open_places f n) x
        → ¬ AllHold (open_places f n) }
    ensures always { (f : Contents) (n : ℕ) → AllHold (open_places f n)
        ⊎ ((x : Named) × FirstFalse (open_places f n) x) }
{}

/// The solid that is one shell of a file within its limits, whose places hold, is numbered by first appearance, and
/// keeps what every solid keeps.
pub fn shell_solid_is_numbered()
    ensures { (f : Contents) (n : ℕ) → FitsLimits f → AllHold (open_places f n)
        → IsNumberedSolid (shell_solid_of f n) }
{}
