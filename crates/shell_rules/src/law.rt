//! What the obligations on shells say together.

ghost use Rattle.std.specs.Prelude.{◌≡◌, ◌↔◌, ◌⊎◌};
ghost use Rattle.solid_data.specs.Obligations.{AllHold, FirstFalse};
ghost use Rattle.solid_data.specs.SolidData.{SolidData};
ghost use Rattle.solid_data.specs.declared.verdict.Failing.{Failing as Named};
ghost use Rattle.shell_rules.specs.Closed.{IsClosedSolid};
ghost use Rattle.shell_rules.specs.ShellObligations.{solid_obligations};

/// The shells of a solid are closed exactly where each obligation on them holds, and where not all hold there is
/// exactly one first false obligation.
pub fn shells_are_definite()
    ensures closed { (s : SolidData) → IsClosedSolid s ↔ AllHold (solid_obligations s) }
    ensures one { (s : SolidData) (x y : Named) → FirstFalse (solid_obligations s) x
        → FirstFalse (solid_obligations s) y → x ≡ y }
    ensures always { (s : SolidData) → AllHold (solid_obligations s)
        ⊎ ((x : Named) × FirstFalse (solid_obligations s) x) }
{}
