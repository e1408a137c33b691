//! The gaps of loops.

ghost use Rattle.std.specs.Prelude.{◌≡◌, ◌+◌, ◌<◌, ◌≤◌, ◌++◌, Bool, length, map, flat_map, slice_get, IfOk, IfSome, get_or};
ghost use Rattle.solid_data.specs.Ring.{next_of_each};
ghost use Rattle.solid_data.specs.SolidData.{same_flag, placed_in_face, placed_loops};
ghost use Rattle.edge_uses.specs.Joins.{start_of, end_of};
ghost use Rattle.edge_uses.specs.Joining.{IsFewFace, IsFewShell, placed_at};
ghost use Rattle.solid_faults.specs.Gaps.{gap_at, loop_gaps, gaps_of};
ghost use Rattle.solid_data.specs.declared.TheConstants.{PART_LIMIT};

use edge_uses::{ends_at, next_place, starts_at};
use iges_base::{EntryNo, NoMemory};
use solid_data::{FaceAt, FaceUse, Loop, LoopAt, LoopUse, Shell, ShellAt, Solid};
use std::alloc::Global;

/// A use of a loop that ends at another vertex than the next one starts at.
#[derive(Clone, Copy)]
pub struct Gap {
    /// The loop, by its face in the shell and its place in the face, both from 0.
    pub at: LoopAt,
    /// The loop's number.
    pub entity: EntryNo,
    /// The tuple of the use in the loop's record, from 1.
    pub tuple: u32,
}

fn end_of_use(solid: &Solid, uses: &[LoopUse], i: usize) -> u32
    requires { i < length uses.now }
    ensures { result ≡ get_or (map (end_of solid.now) uses.now) i 0 }
{
    ends_at(solid, uses[i])
}

fn start_of_next(solid: &Solid, uses: &[LoopUse], i: usize) -> u32
    requires { i < length uses.now }
    ensures { result ≡ get_or (next_of_each (map (start_of solid.now) uses.now)) i 0 }
{
    let next = next_place(i, uses.len());
    starts_at(solid, uses[next])
}

fn push_gap(
    out: &mut Vec<Gap>,
    at: LoopAt,
    walk: &Loop,
    tuple: u32,
    end: u32,
    start: u32,
) -> Result<(), NoMemory>
    ensures { (f : Bool) → IfOk result (λ _. out.new.items
        ≡ out.old.items ++ gap_at (record { at = at; forwards = f; loop = walk.now })
        (tuple, end, start)) }
{
    if end != start {
        out.push(Gap {
            at,
            entity: walk.entity,
            tuple,
        })?;
    }
    Ok(())
}

fn push_loop_gaps(
    solid: &Solid,
    at: LoopAt,
    walk: &Loop,
    out: &mut Vec<Gap>,
) -> Result<(), NoMemory>
    requires { length walk.now.uses < PART_LIMIT }
    ensures { (f : Bool) → IfOk result (λ _. out.new.items
        ≡ out.old.items
        ++ loop_gaps solid.now (record { at = at; forwards = f; loop = walk.now })) }
{
    let uses = walk.uses.as_slice();
    'uses: for i in 0..uses.len() {
        let end = end_of_use(solid, uses, i);
        let start = start_of_next(solid, uses, i);
        push_gap(out, at, walk, i as u32 + 1, end, start)?;
    }
    Ok(())
}

fn push_face_gaps(
    solid: &Solid,
    shell_flag: bool,
    at: FaceAt,
    face: &FaceUse,
    out: &mut Vec<Gap>,
) -> Result<(), NoMemory>
    requires { IsFewFace face.now }
    ensures { IfOk result (λ _. out.new.items
        ≡ out.old.items ++ flat_map (loop_gaps solid.now)
        (placed_in_face shell_flag (at.0, face.now))) }
{
    let loops = face.loops.as_slice();
    'loops: for i in 0..loops.len() {
        let place = LoopAt {
            face: at,
            place: i as u32,
        };
        push_loop_gaps(solid, place, &loops[i], out)?;
    }
    Ok(())
}

fn push_shell_gaps(solid: &Solid, shell: &Shell, out: &mut Vec<Gap>) -> Result<(), NoMemory>
    requires { IsFewShell shell.now }
    ensures { IfOk result (λ _. out.new.items ≡ out.old.items ++ gaps_of solid.now shell.now) }
{
    let faces = shell.faces.as_slice();
    'faces: for i in 0..faces.len() {
        push_face_gaps(solid, shell.flag, FaceAt(i as u32), &faces[i], out)?;
    }
    Ok(())
}

/// The gaps of a shell's loops, in file order. In a loop's own order and by its own flags alone each
/// use is to end where the next one starts, the last where the first does.
pub fn gaps(alloc: Global, solid: &Solid, shell: ShellAt) -> Result<Vec<Gap>, NoMemory>
    requires { shell.0 < length solid.now.shells }
    ensures { IfOk result (λ gaps. IfSome (slice_get solid.now.shells shell.0)
        (λ h. gaps.items ≡ gaps_of solid.now h)) }
{
    let shell = solid.shell(shell).unwrap();
    let mut gaps = Vec::new(alloc);
    push_shell_gaps(solid, shell, &mut gaps)?;
    Ok(gaps)
}
