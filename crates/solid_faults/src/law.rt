//! What the faults of a shell say of its obligations.

ghost use Rattle.std.specs.Prelude.{◌≡◌, ◌↔◌, ◌∷◌, ℕ, List};
ghost use Rattle.solid_data.specs.Numbering.{IsNumberedSolid};
ghost use Rattle.solid_data.specs.Obligations.{AllHold, FirstFalse};
ghost use Rattle.solid_data.specs.SolidData.{SolidData};
ghost use Rattle.solid_data.specs.declared.solid.Shell.{Shell as AnyShell};
ghost use Rattle.solid_data.specs.declared.verdict.Failing.{Failing as Named};
ghost use Rattle.solid_data.proofs.Members.{Has};
ghost use Rattle.shell_rules.specs.ShellObligations.{shell_obligations};
ghost use Rattle.solid_faults.specs.Faults.{Faults, AreFaults, IsFaultless, failing_of};
ghost use Rattle.solid_faults.specs.Naming.{AreNamed};

/// Each list of a shell's faults names exactly the failing obligations of its rule, in order, of
/// REACH and LINK where loops join and edges are paired. The first of all that is found is the
/// first false obligation of the shell, and nothing is found exactly where all hold.
pub fn faults_are_definite()
    ensures named { (s : SolidData) (k : ℕ) (h : AnyShell) (x : Faults) → IsNumberedSolid s
        → Has s.shells h → AreFaults s k h x → AreNamed s k h x }
    ensures first { (s : SolidData) (k : ℕ) (h : AnyShell) (x : Faults) → IsNumberedSolid s → Has s.shells h → AreFaults s k h x →
        (y : Named) (ys : List Named) → failing_of s h x ≡ y ∷ ys → FirstFalse (shell_obligations s (k, h)) y }
    ensures closed { (s : SolidData) (k : ℕ) (h : AnyShell) (x : Faults) → IsNumberedSolid s → Has s.shells h → AreFaults s k h x →
        AllHold (shell_obligations s (k, h)) ↔ IsFaultless x }
{}
