//! Whether the loops of a shell join.

ghost use Rattle.std.specs.Prelude.{◌≡◌, ◌↔◌, ℕ, ◌+◌, ◌<◌, ◌≤◌, IsTrue, length, map, slice_get, option_copied, MatchOption, IfSome, IfNone, get_or};
ghost use Rattle.std.specs.List.{enumerate_from};
ghost use Rattle.solid_data.specs.Ring.{next_of_each};
ghost use Rattle.solid_data.specs.SolidData.{same_flag, placed_in_face, placed_loops};
ghost use Rattle.solid_data.specs.Obligations.{AllHold, FirstFalse};
ghost use Rattle.solid_data.specs.declared.verdict.Rule.TheVariants.{Unjoined as RuleUnjoined};
ghost use Rattle.edge_uses.specs.Joins.{begin_of, start_of, end_of, IsJoined, loop_obligations, join_obligations, IsFirstUnjoined};
ghost use Rattle.edge_uses.specs.ShellRows.{EndsMeet, rows_of};
ghost use Rattle.edge_uses.specs.Joining.{AllJoined, IsFirstOpen, IsFewFace, IsFewShell};
ghost use Rattle.solid_data.specs.declared.TheConstants.{PART_LIMIT};

use solid_data::{Edge, FaceAt, FaceUse, Loop, LoopAt, LoopUse, Shell, ShellAt, Solid, VertexId};

/// A loop that doesn't join, and the tuple of its first use that doesn't end where the next one starts, from 1.
#[derive(Clone, Copy)]
pub struct Unjoined {
    /// The loop, by its face in the shell and its place in the face, both from 0.
    pub at: LoopAt,
    /// The tuple in the loop's record, from 1.
    pub place: u32,
}

/// The vertex where an edge begins that is walked along it or against it; 0 where there is no edge.
pub fn begins_at(edge: Option<&Edge>, along: bool) -> u32
    ensures { result ≡ begin_of (option_copied edge.entry) along }
{
    match edge {
        None => 0,
        Some(edge) => { if along { edge.from.0 } else { edge.to.0 } }
    }
}

/// The vertex where a use starts, by the flag of its tuple alone; 0 where the solid hasn't its edge.
pub fn starts_at(solid: &Solid, item: LoopUse) -> u32
    ensures { result ≡ start_of solid.now item }
{
    match item {
        LoopUse::EdgeUse { edge, along } => begins_at(solid.edge(edge), along),
        LoopUse::VertexUse { vertex } => vertex.0,
    }
}

/// The vertex where a use ends, by the flag of its tuple alone; 0 where the solid hasn't its edge.
pub fn ends_at(solid: &Solid, item: LoopUse) -> u32
    ensures { result ≡ end_of solid.now item }
{
    match item {
        LoopUse::EdgeUse { edge, along } => begins_at(solid.edge(edge), !along),
        LoopUse::VertexUse { vertex } => vertex.0,
    }
}

/// The next place of a ring of so many, from 0.
pub fn next_place(i: usize, len: usize) -> usize
    requires { i < len }
    ensures inside { result < len }
    ensures next { i + 1 < len → result ≡ i + 1 }
    ensures last { len ≤ i + 1 → result ≡ 0 }
{
    if i + 1 < len { i + 1 } else { 0 }
}

fn ends_where_next_starts(solid: &Solid, uses: &[LoopUse], i: usize) -> bool
    requires { i < length uses.now }
    ensures { IsTrue result ↔ (get_or (map (end_of solid.now) uses.now) i 0
        ≡ get_or (next_of_each (map (start_of solid.now) uses.now)) i 0) }
{
    let next = next_place(i, uses.len());
    ends_at(solid, uses[i]) == starts_at(solid, uses[next])
}

// The first tuple of a loop, from 1, that doesn't end where the next one starts.
fn open_use(solid: &Solid, walk: &Loop) -> Option<u32>
    requires { length walk.now.uses < PART_LIMIT }
    ensures { MatchOption result (IsJoined solid.now walk.now)
        (λ place. FirstFalse (loop_obligations solid.now walk.now) (record { rule = RuleUnjoined; entity = walk.now.entity; place = place })) }
{
    let uses = walk.uses.as_slice();
    'uses: for i in 0..uses.len() {
        if !ends_where_next_starts(solid, uses, i) {
            return Some(i as u32 + 1);
        }
    }
    None
}

fn open_in_face(solid: &Solid, shell_flag: bool, at: FaceAt, face: &FaceUse) -> Option<Unjoined>
    requires { IsFewFace face.now }
    ensures { MatchOption result (AllJoined solid.now (placed_in_face shell_flag (at.0, face.now)))
        (λ u. IsFirstOpen solid.now (placed_in_face shell_flag (at.0, face.now)) u.at u.place) }
{
    let loops = face.loops.as_slice();
    'loops: for i in 0..loops.len() {
        if let Some(place) = open_use(solid, &loops[i]) {
            return Some(Unjoined {
                at: LoopAt {
                    face: at,
                    place: i as u32,
                },
                place,
            });
        }
    }
    None
}

fn open_in_shell(solid: &Solid, shell: &Shell) -> Option<Unjoined>
    requires { IsFewShell shell.now }
    ensures { MatchOption result (AllJoined solid.now (placed_loops shell.now))
        (λ u. IsFirstOpen solid.now (placed_loops shell.now) u.at u.place) }
{
    let faces = shell.faces.as_slice();
    'faces: for i in 0..faces.len() {
        if let Some(open) = open_in_face(solid, shell.flag, FaceAt(i as u32), &faces[i]) {
            return Some(open);
        }
    }
    None
}

/// The first loop of a shell that doesn't join, with its first open use. It takes no memory. In a loop's own order and
/// by its own flags alone each use ends where the next one starts, the last where the first does; a vertex use starts
/// and ends at its vertex.
pub fn first_unjoined(solid: &Solid, shell: ShellAt) -> Option<Unjoined>
    requires { shell.0 < length solid.now.shells }
    ensures first { IfSome (slice_get solid.now.shells shell.0)
        (λ h. MatchOption result (AllHold (join_obligations solid.now h)) (λ u. IsFirstUnjoined solid.now h u.at u.place)) }
    ensures meet { IfNone result (EndsMeet (rows_of solid.now
        (slice_get solid.now.shells shell.0))) }
{
    let shell = solid.shell(shell).unwrap();
    open_in_shell(solid, shell)
}
