//! The walk through one shell.

ghost use Rattle.std.specs.Prelude.{◌≡◌, ◌↔◌, ◌<◌, ◌^◌, IsTrue, ◌⊎◌, IfOk, IfErr, OnOk, Ok, Err, length, pos};
ghost use Rattle.brep_lists.specs.Record.{type_number};
ghost use Rattle.brep_lists.specs.declared.entity_kind.EntityKind.TheVariants.{Shell as shell};
ghost use Rattle.brep_walk.specs.OpenPlaces.{shell_entry_places, shell_record_places, open_places, shell_solid_of};
ghost use Rattle.brep_walk.specs.Places.{faces};
ghost use Rattle.brep_walk.specs.OneShell.{shell_faces, shell_keys, shell_edges};
ghost use Rattle.brep_walk.specs.Walked.{IsFault, Gives};
ghost use Rattle.brep_walk.specs.Walks.{Begins};
ghost use Rattle.iges_params.specs.Limits.{FitsLimits};
ghost use Rattle.iges_params.specs.Named.{values_of};
ghost use Rattle.solid_data.specs.Obligations.{AllHold, FirstFalse};
ghost use Rattle.solid_data.specs.declared.verdict.Failing.{Failing as Named};

use crate::fault::WalkFault;
use crate::state::WalkState;
use brep_lists::EntityKind;
use brep_loops::ShellRecord;
use iges_base::EntryNo;
use iges_directory::Entry;
use iges_fields::Values;
use iges_params::File;
use solid_data::{Faces, Failing, Place, Rule, Shell, Shells, Solid};
use std::alloc::Global;

// Whether the entry is a shell, said to be closed or to be open (IGES 5.3, 4.149).
fn is_shell(entry: &Entry) -> bool
    ensures { IsTrue result ↔ ((entry.now.kind ≡ type_number shell)
        × ((entry.now.form ≡ pos 1) ⊎ (entry.now.form ≡ pos 2))) }
{
    entry.kind == EntityKind::Shell.type_number() && (entry.form == 1 || entry.form == 2)
}

// The values of the shell's record.
fn shell_values(file: &File, entity: EntryNo) -> Result<&Values, Failing>
    ensures holds { OnOk result (AllHold (shell_entry_places file.now entity.0)) }
    ensures values { IfOk result (λ values. values.now ≡ values_of file.now (pos entity.0)) }
    ensures fails { IfErr result (FirstFalse (shell_entry_places file.now entity.0)) }
    ensures limits { FitsLimits file.now }
{
    let place = Place { entity, item: 0 };
    let lines = 2 * file.entry_count();
    if (entity.0 as usize) >= lines {
        return Err(place.fails(Rule::NoEntry));
    }
    let (Some(entry), Some(values)) = (file.entry(entity), file.values(entity)) else {
        return Err(place.fails(Rule::NoEntry));
    };
    if !is_shell(entry) {
        return Err(place.fails(Rule::WrongKind));
    }
    Ok(values)
}

// The shell that the entry's record describes.
fn shell_record(file: &File, entity: EntryNo) -> Result<ShellRecord<'_>, Failing>
    ensures holds { OnOk result (AllHold (shell_record_places file.now entity.0)) }
    ensures listed { IfOk result (λ listed. listed ≡ faces file.now (pos entity.0)) }
    ensures few { IfOk result (λ listed. length listed < 2 ^ 31) }
    ensures fails { IfErr result (FirstFalse (shell_record_places file.now entity.0)) }
    ensures limits { FitsLimits file.now }
{
    let values = shell_values(file, entity)?;
    match ShellRecord::of(values) {
        Some(record) => Ok(record),
        None => Err(Place { entity, item: 0 }.fails(Rule::BadLayout)),
    }
}

// The faces of a shell, whose edges and vertices the walk numbers.
fn numbered_faces(walk: &mut WalkState<'_>, alloc: Global, no: EntryNo) -> Result<Faces, WalkFault>
    requires { Begins walk.old.lists walk.old }
    ensures holds { OnOk result (AllHold (open_places walk.old.lists no.0)) }
    ensures faces { IfOk result (λ r. r ≡ shell_faces walk.old.lists no.0) }
    ensures keys { OnOk result (walk.new.numbering.keys ≡ shell_keys walk.old.lists no.0) }
    ensures edges { OnOk result (walk.new.numbering.edges ≡ shell_edges walk.old.lists no.0) }
    ensures fault { IfErr result (IsFault (open_places walk.old.lists no.0)) }
    ensures limits { FitsLimits walk.old.lists }
{
    let listed = shell_record(walk.lists.file(), no)?;
    let faces = walk.walk_faces(alloc, no, &listed)?;
    Ok(faces)
}

// The shell as a solid, or the first place that fails.
fn shell_solid(walk: &mut WalkState<'_>, alloc: Global, no: EntryNo) -> Result<Solid, WalkFault>
    requires { Begins walk.old.lists walk.old }
    ensures solid { IfOk result (λ s. s ≡ shell_solid_of walk.old.lists no.0) }
    ensures holds { OnOk result (AllHold (open_places walk.old.lists no.0)) }
    ensures fault { IfErr result (IsFault (open_places walk.old.lists no.0)) }
{
    let faces = numbered_faces(walk, alloc, no)?;
    let numbering = &mut walk.numbering;
    let vertices = numbering.take_vertices(alloc);
    let mut shells = Shells::new(alloc);
    shells.push(Shell {
        entity: no,
        flag: true,
        faces,
    })?;
    let edges = numbering.take_edges(alloc);
    Ok(Solid::new(no, shells, edges, vertices))
}

/// One shell as a solid of its own number: the shell with flag true, its faces, loops and uses as its records list them
/// (IGES 5.3, 4.145 to 4.149), and the edges and the vertices that it uses numbered by first appearance. The shell
/// may be of form 1, closed, or 2, open. Where an obligation on the records' places doesn't hold, the first one that
/// doesn't, depth first, is the fault.
pub fn walk_shell(alloc: Global, file: &File, no: EntryNo) -> Result<Solid, WalkFault>
    ensures solid { IfOk result (λ s. s ≡ shell_solid_of file.now no.0) }
    ensures holds { OnOk result (AllHold (open_places file.now no.0)) }
    ensures fault { IfErr result (IsFault (open_places file.now no.0)) }
    ensures only { AllHold (open_places file.now no.0)
        → Gives result (Ok (shell_solid_of file.now no.0)) }
    ensures only_fault { (x : Named) → FirstFalse (open_places file.now no.0) x
        → Gives result (Err x) }
{
    let mut walk = WalkState::new(alloc, file);
    let solid = shell_solid(&mut walk, alloc, no);
    drop(walk);
    solid
}
