//! Where the rows of a shell are in the file.

ghost use Rattle.std.specs.Prelude.{◌≡◌, ◌<◌, ◌++◌, Bool, List, length, map, flat_map, slice_get, option_copied, IfOk};
ghost use Rattle.std.specs.Option.{option_to_list};
ghost use Rattle.solid_data.specs.SolidData.{same_flag, placed_in_face, placed_loops};
ghost use Rattle.solid_data.specs.declared.solid.EdgeId.{EdgeId as AnyEdgeId};
ghost use Rattle.solid_data.specs.declared.solid.LoopAt.{LoopAt as LoopPlace};
ghost use Rattle.edge_uses.specs.Joining.{IsFewFace, IsFewShell, placed_at};
ghost use Rattle.edge_uses.specs.ShellRows.{row_of_edge, rows_of};
ghost use Rattle.edge_uses.specs.declared.row.Row.{Row as AnyRow};
ghost use Rattle.shell_facts.specs.declared.placing.RowPlace.{RowPlace as AnyPlace};
ghost use Rattle.shell_facts.specs.RowPlaces.{place_of_row, use_places, loop_places, face_places, row_places_of, places_in};
ghost use Rattle.solid_data.specs.declared.TheConstants.{PART_LIMIT};

use iges_base::{EntryNo, NoMemory};
use solid_data::{Edge, FaceUse, Loop, LoopUse, Shell, ShellAt, Solid, same_flags};
use std::alloc::Global;

/// Where a row of a shell is in the file, and by which flags it runs (IGES 5.3, 4.147 to 4.149).
#[derive(Clone, Copy)]
pub struct RowPlace {
    /// Whether the row runs along its edge, by all three flags.
    pub along: bool,
    /// The number of its face.
    pub face: EntryNo,
    /// The shell's flag for the face.
    pub face_flag: bool,
    /// The number of its loop.
    pub walk: EntryNo,
    /// Its tuple in the loop's record, from 1.
    pub tuple: u32,
    /// The tuple's own flag.
    pub flag: bool,
}

// The place of an edge use, if the solid has the edge.
fn place_on(
    face: &FaceUse,
    walk: &Loop,
    forwards: bool,
    tuple: u32,
    flag: bool,
    edge: Option<&Edge>,
) -> Option<RowPlace>
    ensures { (at : LoopPlace) (id : AnyEdgeId)
        → option_to_list result ≡ place_of_row face.now
        (record { at = at; forwards = forwards; loop = walk.now }) tuple flag
        (row_of_edge at id (same_flag flag forwards) (option_copied edge.entry)) }
{
    edge?;
    Some(RowPlace {
        along: same_flags(flag, forwards),
        face: face.entity,
        face_flag: face.flag,
        walk: walk.entity,
        tuple,
        flag,
    })
}

// None for a vertex use, which is no row.
fn place_of_use(
    solid: &Solid,
    face: &FaceUse,
    walk: &Loop,
    forwards: bool,
    tuple: u32,
    item: LoopUse,
) -> Option<RowPlace>
    ensures { (at : LoopPlace) → option_to_list result
        ≡ use_places solid.now face.now (record { at = at; forwards = forwards; loop = walk.now })
        (tuple, item) }
{
    match item {
        LoopUse::EdgeUse { edge, along } => {
            place_on(face, walk, forwards, tuple, along, solid.edge(edge))
        }
        LoopUse::VertexUse { .. } => None,
    }
}

fn push_place(out: &mut Vec<RowPlace>, place: Option<RowPlace>) -> Result<(), NoMemory>
    ensures { IfOk result (λ _. out.new.items ≡ out.old.items ++ option_to_list place) }
{
    if let Some(place) = place {
        out.push(place)?;
    }
    Ok(())
}

fn push_loop_places(
    solid: &Solid,
    face: &FaceUse,
    walk: &Loop,
    forwards: bool,
    out: &mut Vec<RowPlace>,
) -> Result<(), NoMemory>
    requires { length walk.now.uses < PART_LIMIT }
    ensures { (at : LoopPlace) → IfOk result
        (λ _. out.new.items ≡ out.old.items ++ loop_places solid.now face.now
        (record { at = at; forwards = forwards; loop = walk.now })) }
{
    let uses = walk.uses.as_slice();
    'uses: for i in 0..uses.len() {
        let place = place_of_use(solid, face, walk, forwards, i as u32 + 1, uses[i]);
        push_place(out, place)?;
    }
    Ok(())
}

fn push_face_places(
    solid: &Solid,
    shell_flag: bool,
    at: u32,
    face: &FaceUse,
    out: &mut Vec<RowPlace>,
) -> Result<(), NoMemory>
    requires { IsFewFace face.now }
    ensures { IfOk result (λ _. out.new.items
        ≡ out.old.items ++ face_places solid.now shell_flag (at, face.now)) }
{
    let forwards = same_flags(face.flag, shell_flag);
    let loops = face.loops.as_slice();
    'loops: for i in 0..loops.len() {
        push_loop_places(solid, face, &loops[i], forwards, out)?;
    }
    Ok(())
}

fn push_shell_places(solid: &Solid, shell: &Shell, out: &mut Vec<RowPlace>) -> Result<(), NoMemory>
    requires { IsFewShell shell.now }
    ensures { IfOk result (λ _. out.new.items
        ≡ out.old.items ++ row_places_of solid.now shell.now) }
{
    let faces = shell.faces.as_slice();
    'faces: for i in 0..faces.len() {
        push_face_places(solid, shell.flag, i as u32, &faces[i], out)?;
    }
    Ok(())
}

/// Where each row of a shell is in the file, in the order of the rows.
pub fn row_places(alloc: Global, solid: &Solid, shell: ShellAt) -> Result<Vec<RowPlace>, NoMemory>
    requires { shell.0 < length solid.now.shells }
    ensures places { IfOk result (λ out. out.items
        ≡ places_in solid.now (slice_get solid.now.shells shell.0)) }
    ensures rows { IfOk result (λ out. map (λ (p : AnyPlace). p.along) out.items
        ≡ map (λ (r : AnyRow). r.along) (rows_of solid.now
        (slice_get solid.now.shells shell.0)).rows) }
    ensures each { IfOk result (λ out. length out.items
        ≡ length (rows_of solid.now (slice_get solid.now.shells shell.0)).rows) }
{
    let shell = solid.shell(shell).unwrap();
    let mut out = Vec::new(alloc);
    push_shell_places(solid, shell, &mut out)?;
    Ok(out)
}
