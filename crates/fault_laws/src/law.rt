//! What is found in a shell is always there, and its fans are rounds.

ghost use Rattle.edge_uses.specs.Mates.{ArePaired};
ghost use Rattle.edge_uses.specs.ShellRows.{ShellRows};
ghost use Rattle.fault_laws.specs.Rounds.{AreRounds};
ghost use Rattle.solid_faults.specs.Fans.{AreFans};
ghost use Rattle.solid_faults.specs.Faults.{AreFaults, Faults};
ghost use Rattle.solid_data.specs.Numbering.{IsNumberedSolid};
ghost use Rattle.solid_data.specs.SolidData.{SolidData};
ghost use Rattle.solid_data.specs.declared.solid.Shell.{Shell as AnyShell};
ghost use Rattle.std.specs.Prelude.{◌≡◌, List, Some, slice_get, ℕ};

/// What is told of a vertex, fan by fan, lists each row that starts there once. In a fan each row turns to the next one, and the last
/// to the first.
pub fn fans_are_rounds()
    ensures { (d : ShellRows) (leasts : List ℕ) (v : ℕ) → ArePaired d → AreFans d leasts → AreRounds d leasts v }
{}

/// Of each shell of a solid there is something to find: parts of it that are the components of its faces, and, where loops join and
/// edges are paired, fans that are the cycles of turns. With `faults_are_definite` this is exactly what fails.
pub fn something_is_found()
    ensures { (s : SolidData) (k : ℕ) (h : AnyShell) → IsNumberedSolid s → slice_get s.shells k ≡ Some h → (x : Faults) × AreFaults s k h x }
{}
