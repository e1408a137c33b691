//! Laws of paths.

ghost use Rattle.std.specs.Prelude.{◌≡◌, ℕ, Option};
ghost use Rattle.brep_walk.specs.Places.{places};
ghost use Rattle.iges_params.specs.Contents.{Contents};
ghost use Rattle.record_paths.specs.Paths.{AreSame, IsPathTo, all_owed, sited};
ghost use Rattle.record_paths.specs.declared.path.Path.{Path};
ghost use Rattle.solid_data.specs.declared.verdict.Failing.{Failing};

/// The obligations that are given with their paths are those of the solid's records, in their order.
pub fn paths_are_of_places()
    ensures { (f : Contents) (n : ℕ) → AreSame (all_owed (sited f n)) (places f n) }
{}

/// One path at most leads to the first obligation of a name.
pub fn one_path()
    ensures { (f : Contents) (n : ℕ) (name : Failing) (p q : Option Path)
        → IsPathTo name (sited f n) p → IsPathTo name (sited f n) q → p ≡ q }
{}
