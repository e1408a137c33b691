//! All that fails in a shell.

ghost use Rattle.std.specs.Prelude.{◌≡◌, ◌↔◌, IsTrue, ◌<◌, [], ℕ, true, false, Some, length, slice_get, IfOk, IfSome, MatchOption, ◌⊎◌};
ghost use Rattle.solid_data.specs.declared.solid.Shell.{Shell as AnyShell};
ghost use Rattle.edge_uses.specs.Before.{AreBelow};
ghost use Rattle.edge_uses.specs.ShellRows.{EndsMeet, rows_of};
ghost use Rattle.solid_faults.specs.Edges.{unpaired_of};
ghost use Rattle.solid_faults.specs.Fans.{AreFans, unlinked_of};
ghost use Rattle.solid_faults.specs.Faults.{AreFaults, AreLinked};
ghost use Rattle.solid_faults.specs.Parts.{faces_apart};

use crate::edge::{Unpaired, unpaired_edges};
use crate::fan::Unlinked;
use crate::fanning::fan_leasts;
use crate::gap::{Gap, gaps};
use crate::part::firsts;
use crate::shared::{below_shell, shared_vertices};
use crate::unlinking::unlinked_vertices;
use edge_uses::{PairFault, Paired, Rows, pair, rows};
use iges_base::NoMemory;
use solid_data::{ShellAt, Solid};
use std::alloc::Global;
use std::marker::Model;

/// For each row the least one of its fan, and the vertices that aren't linked.
#[derive(Drop)]
pub struct Linking {
    leasts: Vec<u32>,
    unlinked: Vec<Unlinked>,
}

impl Model for Linking {
    ghost use Rattle.solid_faults.specs.Faults.{Linking as Linked};

    ghost Value = { Linked };

    ghost view = { λ l. record { leasts = l.leasts.items; unlinked = l.unlinked.items } };
}

impl Linking {
    ghost use Rattle.std.specs.Prelude.{◌≡◌};

    /// For each row the least row of its fan.
    pub fn leasts(&self) -> &[u32]
        ensures { result.now ≡ self.now.leasts }
    {
        self.leasts.as_slice()
    }

    /// The vertices that aren't linked, by rising number.
    pub fn unlinked(&self) -> &[Unlinked]
        ensures { result.now ≡ self.now.unlinked }
    {
        self.unlinked.as_slice()
    }
}

/// All that fails in a shell, rule by rule.
#[derive(Drop)]
pub struct ShellFaults {
    gaps: Vec<Gap>,
    unpaired: Vec<Unpaired>,
    firsts: Vec<u32>,
    linking: Option<Linking>,
    shared: Vec<u32>,
}

impl Model for ShellFaults {
    ghost use Rattle.solid_faults.specs.Faults.{Faults};

    ghost Value = { Faults };

    ghost view = { λ x. record { gaps = x.gaps.items; unpaired = x.unpaired.items; firsts = x.firsts.items; linking = x.linking; shared = x.shared.items } };
}

// Whether the part of face 0 has all faces: each face is given by the first face of its part.
fn no_other_part(firsts: &[u32]) -> bool
    ensures { IsTrue result ↔ (faces_apart firsts.now ≡ []) }
{
    'faces: for i in 0..firsts.len() {
        if firsts[i] != 0 {
            return false;
        }
    }
    true
}

/// How many faces lie outside of the first part, by the first face of the part of each.
pub fn apart_in(firsts: &[u32]) -> usize
    ensures { result ≡ length (faces_apart firsts.now) }
{
    let mut count = 0;
    'faces: for i in 0..firsts.len() {
        if firsts[i] != 0 {
            count += 1;
        }
    }
    count
}

// False where links weren't judged too.
fn all_linked(linking: &Option<Linking>) -> bool
    ensures { IsTrue result ↔ AreLinked linking.now }
{
    match linking {
        None => false,
        Some(linking) => linking.unlinked.as_slice().is_empty(),
    }
}

impl ShellFaults {
    ghost use Rattle.std.specs.Prelude.{◌≡◌, ◌↔◌, IsTrue, length, option_copied};
    ghost use Rattle.solid_faults.specs.Faults.{IsFaultless};
    ghost use Rattle.solid_faults.specs.Parts.{faces_apart};

    /// Whether nothing fails: no list holds anything, and there is one part.
    pub fn is_empty(&self) -> bool
        ensures { IsTrue result ↔ IsFaultless self.now }
    {
        self.gaps.as_slice().is_empty()
            && self.unpaired.as_slice().is_empty()
            && no_other_part(self.firsts.as_slice())
            && all_linked(&self.linking)
            && self.shared.as_slice().is_empty()
    }

    /// The gaps of loops, in file order.
    pub fn gaps(&self) -> &[Gap]
        ensures { result.now ≡ self.now.gaps }
    {
        self.gaps.as_slice()
    }

    /// The edges that aren't paired, by rising number.
    pub fn unpaired(&self) -> &[Unpaired]
        ensures { result.now ≡ self.now.unpaired }
    {
        self.unpaired.as_slice()
    }

    /// For each face the first face of its part.
    pub fn firsts(&self) -> &[u32]
        ensures { result.now ≡ self.now.firsts }
    {
        self.firsts.as_slice()
    }

    /// How many faces lie outside of the first part.
    pub fn apart_count(&self) -> usize
        ensures { result ≡ length (faces_apart self.now.firsts) }
    {
        apart_in(self.firsts.as_slice())
    }

    /// The fans; None where a loop has a gap or an edge isn't paired, since turns aren't definite
    /// there.
    pub fn linking(&self) -> Option<&Linking>
        ensures { option_copied result ≡ self.now.linking }
    {
        self.linking.as_ref()
    }

    /// The vertices that an earlier shell has, by rising number.
    pub fn shared(&self) -> &[u32]
        ensures { result.now ≡ self.now.shared }
    {
        self.shared.as_slice()
    }
}

// The fans of a shell whose edges are all paired, and its vertices that aren't linked.
fn linked(alloc: Global, paired: &Paired<'_>) -> Result<Linking, NoMemory>
    ensures fans { IfOk result (λ l. AreFans paired.now l.leasts) }
    ensures unlinked { IfOk result (λ l. l.unlinked ≡ unlinked_of paired.now l.leasts) }
{
    let leasts = fan_leasts(alloc, paired)?;
    let unlinked = unlinked_vertices(alloc, paired.rows(), leasts.as_slice())?;
    Ok(Linking { leasts, unlinked })
}

// None where a loop has a gap or an edge isn't paired, since then rows have no turns.
fn judge_links(alloc: Global, rows: &Rows, gap: bool) -> Result<Option<Linking>, NoMemory>
    requires { gap ≡ false → EndsMeet rows.now }
    ensures { IfOk result (λ o. MatchOption o ((gap ≡ true) ⊎ (¬ (unpaired_of rows.now ≡ [])))
        (λ l. (gap ≡ false) × (unpaired_of rows.now ≡ []) × AreFans rows.now l.leasts × (l.unlinked ≡ unlinked_of rows.now l.leasts))) }
{
    if gap {
        return Ok(None);
    }
    match pair(alloc, rows) {
        Err(PairFault::Unpaired(_)) => Ok(None),
        Err(PairFault::NoMemory) => Err(NoMemory),
        Ok(paired) => {
            let linking = linked(alloc, &paired)?;
            Ok(Some(linking))
        }
    }
}

fn has_gap(gaps: &[Gap]) -> bool
    ensures none { result ≡ false → gaps.now ≡ [] }
    ensures some { result ≡ true → ¬ (gaps.now ≡ []) }
{
    !gaps.is_empty()
}

/// All that fails in a shell, whose rows are given with the number that the vertices of the shells
/// before it lie below.
pub fn faults_of(
    alloc: Global,
    solid: &Solid,
    shell: ShellAt,
    rows: &Rows,
    below: usize,
) -> Result<ShellFaults, NoMemory>
    requires shell { shell.0 < length solid.now.shells }
    requires rows { rows.now ≡ rows_of solid.now (slice_get solid.now.shells shell.0) }
    requires below { AreBelow solid.now shell.0 below }
    ensures { IfOk result (λ x. (h : AnyShell) → slice_get solid.now.shells shell.0 ≡ Some h
        → AreFaults solid.now shell.0 h x) }
{
    let gaps = gaps(alloc, solid, shell)?;
    let unpaired = unpaired_edges(alloc, rows)?;
    let firsts = firsts(alloc, rows)?;
    let linking = judge_links(alloc, rows, has_gap(gaps.as_slice()))?;
    let shared = shared_vertices(alloc, below, rows)?;
    Ok(ShellFaults {
        gaps,
        unpaired,
        firsts,
        linking,
        shared,
    })
}

/// All that fails in a shell. It goes once over the uses of the shells before, for their
/// vertices; whoever goes over all shells carries the number of these, and calls `faults_of`.
pub fn faults(alloc: Global, solid: &Solid, shell: ShellAt) -> Result<ShellFaults, NoMemory>
    requires { shell.0 < length solid.now.shells }
    ensures { IfOk result (λ x. (h : AnyShell) → slice_get solid.now.shells shell.0 ≡ Some h
        → AreFaults solid.now shell.0 h x) }
{
    let rows = rows(alloc, solid, shell)?;
    let below = below_shell(alloc, solid, shell)?;
    faults_of(alloc, solid, shell, &rows, below)
}
