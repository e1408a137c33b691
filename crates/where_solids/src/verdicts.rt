//! The verdict on a solid, by what fails in its shells.

ghost use Rattle.shell_rules.specs.ShellObligations.{shell_obligations, solid_obligations};
ghost use Rattle.solid_data.specs.SolidData.{edge_name, vertex_name};
ghost use Rattle.solid_data.specs.Obligations.{AllHold, FirstFalse, IsVerdict};
ghost use Rattle.solid_data.specs.declared.solid.Shell.{Shell as AnyShell};
ghost use Rattle.solid_data.specs.declared.verdict.Failing.{Failing as Named};
ghost use Rattle.solid_faults.specs.Edges.{named_vertex, shared_failing, unpaired_failing};
ghost use Rattle.solid_faults.specs.Fans.{unlinked_failing};
ghost use Rattle.solid_faults.specs.Faults.{failing_of, failing_vertices};
ghost use Rattle.solid_faults.specs.Gaps.{gap_failing};
ghost use Rattle.solid_faults.specs.Parts.{failing_faces};
ghost use Rattle.std.specs.Prelude.{◌≡◌, ◌∷◌, ◌<◌, [], List, Some, MatchOption, length, map, option_copied, slice_get};
ghost use Rattle.solid_hints.specs.AllFaults.{AreAllFaults};
ghost use Rattle.solid_data.specs.declared.TheConstants.{PART_LIMIT};

use solid_data::{FaceUse, Failing, Rule, Shell, Solid, Verdict, VertexId};
use solid_faults::{Gap, Linking, ShellFaults, Unlinked, Unpaired};
use solid_hints::{AllFaults, shell_at};

fn first_gap(gaps: &[Gap]) -> Option<Failing>
    ensures { MatchOption result (map gap_failing gaps.now ≡ [])
        (λ y. (ys : List Named) × (map gap_failing gaps.now ≡ y ∷ ys)) }
{
    let [gap, ..] = gaps else {
        return None;
    };
    Some(Failing {
        rule: Rule::Unjoined,
        entity: gap.entity,
        place: gap.tuple,
    })
}

fn first_unpaired(solid: &Solid, unpaired: &[Unpaired]) -> Option<Failing>
    ensures { MatchOption result (map (unpaired_failing solid.now) unpaired.now ≡ [])
        (λ y. (ys : List Named) × (map (unpaired_failing solid.now) unpaired.now ≡ y ∷ ys)) }
{
    let [first, ..] = unpaired else {
        return None;
    };
    let key = solid.edge_key(first.edge);
    Some(Failing {
        rule: Rule::Unpaired,
        entity: key.list,
        place: key.index,
    })
}

// The first face that isn't in the first part.
fn first_apart(faces: &[FaceUse], firsts: &[u32]) -> Option<Failing>
    ensures { MatchOption result (failing_faces faces.now firsts.now ≡ [])
        (λ y. (ys : List Named) × (failing_faces faces.now firsts.now ≡ y ∷ ys)) }
{
    let count = faces.len().min(firsts.len());
    'faces: for i in 0..count {
        if firsts[i] != 0 {
            return Some(Failing {
                rule: Rule::Unreached,
                entity: faces[i].entity,
                place: 0,
            });
        }
    }
    None
}

// That a rule fails at a vertex: the entity is its list, the place its index.
fn at_vertex(solid: &Solid, rule: Rule, vertex: u32) -> Failing
    ensures { result ≡ named_vertex rule (vertex_name (slice_get solid.now.vertices vertex)) }
{
    let key = solid.vertex_key(VertexId(vertex));
    Failing {
        rule,
        entity: key.list,
        place: key.index,
    }
}

fn first_unlinked(solid: &Solid, linking: Option<&Linking>) -> Option<Failing>
    ensures { MatchOption result (failing_vertices solid.now (option_copied linking.entry) ≡ [])
        (λ y. (ys : List Named) × (failing_vertices solid.now (option_copied linking.entry)
        ≡ y ∷ ys)) }
{
    let Some(linking) = linking else {
        return None;
    };
    let [first, ..] = linking.unlinked() else {
        return None;
    };
    Some(at_vertex(solid, Rule::Unlinked, first.vertex.0))
}

fn first_shared(solid: &Solid, shared: &[u32]) -> Option<Failing>
    ensures { MatchOption result (map (shared_failing solid.now) shared.now ≡ [])
        (λ y. (ys : List Named) × (map (shared_failing solid.now) shared.now ≡ y ∷ ys)) }
{
    let [first, ..] = shared else {
        return None;
    };
    Some(at_vertex(solid, Rule::Shared, *first))
}

// The first that fails in a shell.
fn first_failing(solid: &Solid, shell: &Shell, faults: &ShellFaults) -> Option<Failing>
    ensures { MatchOption result (failing_of solid.now shell.now faults.now ≡ [])
        (λ y. (ys : List Named) × (failing_of solid.now shell.now faults.now ≡ y ∷ ys)) }
{
    if let Some(failing) = first_gap(faults.gaps()) {
        return Some(failing);
    }
    if let Some(failing) = first_unpaired(solid, faults.unpaired()) {
        return Some(failing);
    }
    if let Some(failing) = first_apart(shell.faces.as_slice(), faults.firsts()) {
        return Some(failing);
    }
    if let Some(failing) = first_unlinked(solid, faults.linking()) {
        return Some(failing);
    }
    first_shared(solid, faults.shared())
}

// The first that fails in a shell, given by its place.
fn failing_at(solid: &Solid, all: &AllFaults, k: usize) -> Option<Failing>
    requires shell { k < length solid.now.shells }
    requires few { k < PART_LIMIT }
    requires faults { AreAllFaults solid.now all.now }
    ensures { (h : AnyShell) → slice_get solid.now.shells k ≡ Some h →
        MatchOption result (AllHold (shell_obligations solid.now (k, h))) (FirstFalse (shell_obligations solid.now (k, h))) }
{
    let shell = shell_at(solid, k);
    let faults = all.get(k).unwrap();
    first_failing(solid, shell, faults)
}

/// The verdict on a solid, of which each obligation on its records holds and this is all that fails in its shells.
pub fn verdict(solid: &Solid, all: &AllFaults) -> Verdict
    requires { AreAllFaults solid.now all.now }
    ensures { IsVerdict (solid_obligations solid.now) result }
{
    'shells: for k in 0..solid.shell_count() {
        if let Some(failing) = failing_at(solid, all, k) {
            return Verdict::Fails(failing);
        }
    }
    Verdict::Closed
}
