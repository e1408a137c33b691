//! The walk through one solid after another.

ghost use Rattle.brep_lists.specs.declared.entity_kind.EntityKind.TheVariants.{Solid as solid};
ghost use Rattle.brep_walk.specs.Places.{places, told, record_places, shells};
ghost use Rattle.brep_walk.specs.SolidOf.{solid_of, keys_of, shell_of, edge_of, edge_keys};
ghost use Rattle.brep_walk.specs.Walked.{IsFault, Gives};
ghost use Rattle.iges_params.specs.Limits.{FitsLimits};
ghost use Rattle.solid_data.specs.Obligations.{AllHold, FirstFalse};
ghost use Rattle.solid_data.specs.declared.verdict.Failing.{Failing as Named};
ghost use Rattle.std.specs.Prelude.{◌≡◌, IfOk, IfErr, OnOk, Ok, Err, ◌<◌, ◌^◌, map, flat_map, length, pos};

use crate::fault::WalkFault;
use crate::lists::Lists;
use crate::state::WalkState;
use brep_loops::SolidRecord;
use iges_base::EntryNo;
use iges_params::File;
use solid_data::{Place, Shells, Solid};
use std::alloc::Global;
use std::marker::Model;

/// Walks solids of one file, one after another. What is sized by the file, and the lists that were looked at, serve for
/// all of them, so that a walk costs what its own solid names.
#[derive(Drop)]
pub struct Walker<'a> {
    walk: WalkState<'a>,
}

impl<'a> Model for Walker<'a> {
    ghost use Rattle.iges_params.specs.Contents.{Contents};

    ghost Value = { Contents };

    ghost view = { λ walker. walker.walk.lists };
}

impl<'a> Walker<'a> {
    /// A walker of the solids of a file.
    pub fn new(alloc: Global, file: &'a File) -> Walker<'a>
        ensures { result ≡ file.now }
    {
        Walker {
            walk: WalkState::new(alloc, file),
        }
    }

    /// The solid of an entry, as `walk` gives it. After a fault the walker serves for other solids.
    pub fn walk(&mut self, alloc: Global, no: EntryNo) -> Result<Solid, WalkFault>
        ensures file { self.new ≡ self.old }
        ensures solid { IfOk result (λ s. s ≡ solid_of self.old no.0) }
        ensures holds { OnOk result (AllHold (places self.old no.0)) }
        ensures fault { IfErr result (IsFault (places self.old no.0)) }
        ensures only { AllHold (places self.old no.0) → Gives result (Ok (solid_of self.old no.0)) }
        ensures only_fault { (x : Named) → FirstFalse (places self.old no.0) x
            → Gives result (Err x) }
    {
        walk_solid(&mut self.walk, alloc, no)
    }
}

// The record of a solid.
fn solid_record<'a>(
    lists: &mut Lists<'a>,
    entity: EntryNo,
) -> Result<(EntryNo, SolidRecord<'a>), WalkFault>
    ensures file { lists.new ≡ lists.old }
    ensures holds { OnOk result (AllHold
        (record_places lists.old (pos entity.0) 0 solid (pos entity.0))) }
    ensures named { IfOk result (λ r. (pos entity.0 ≡ pos r.0.0)
        × (r.1 ≡ told solid lists.old (pos entity.0))) }
    ensures few { IfOk result (λ r. length r.1.voids < 2 ^ 31) }
    ensures limits { FitsLimits lists.old }
    ensures fault { IfErr result (IsFault
        (record_places lists.old (pos entity.0) 0 solid (pos entity.0))) }
{
    lists.record(Place { entity, item: 0 }, i64::from(entity.0))
}

// The shells of a solid. The walk begins again for it.
fn numbered_shells(
    walk: &mut WalkState<'_>,
    alloc: Global,
    no: EntryNo,
) -> Result<Shells, WalkFault>
    ensures file { walk.new.lists ≡ walk.old.lists }
    ensures holds { OnOk result (AllHold (places walk.old.lists no.0)) }
    ensures shells { IfOk result (λ r. r ≡ map (shell_of walk.old.lists (pos no.0))
        (shells walk.old.lists (pos no.0))) }
    ensures keys { OnOk result (walk.new.numbering.keys ≡ keys_of walk.old.lists (pos no.0)) }
    ensures edges { OnOk result (walk.new.numbering.edges
        ≡ flat_map (edge_of walk.old.lists (pos no.0)) (edge_keys walk.old.lists (pos no.0))) }
    ensures fault { IfErr result (IsFault (places walk.old.lists no.0)) }
    ensures limits { FitsLimits walk.old.lists }
{
    let (entity, listed) = solid_record(&mut walk.lists, no)?;
    walk.restart(alloc);
    let shells = walk.walk_shells(alloc, entity, &listed)?;
    Ok(shells)
}

/// The solid that a walk through its file finds, or the first place that fails. The walk may have gone through other
/// solids before, with whatever end.
pub fn walk_solid(walk: &mut WalkState<'_>, alloc: Global, no: EntryNo) -> Result<Solid, WalkFault>
    ensures file { walk.new.lists ≡ walk.old.lists }
    ensures solid { IfOk result (λ s. s ≡ solid_of walk.old.lists no.0) }
    ensures holds { OnOk result (AllHold (places walk.old.lists no.0)) }
    ensures fault { IfErr result (IsFault (places walk.old.lists no.0)) }
{
    let shells = numbered_shells(walk, alloc, no)?;
    let vertices = walk.numbering.take_vertices(alloc);
    let edges = walk.numbering.take_edges(alloc);
    walk.numbering.restart(alloc);
    Ok(Solid::new(no, shells, edges, vertices))
}

/// The solid of an entry: the shells, faces, loops and uses as its records list them (IGES 5.3, 4.49 and 4.145 to
/// 4.149), with the edges and the vertices that are used numbered by first appearance. Where an obligation on the
/// records' places doesn't hold, the first one that doesn't, depth first, is the fault. Its arrays reach to the
/// largest number that it comes upon, so where many solids of a file are walked, a `Walker` serves.
pub fn walk(alloc: Global, file: &File, no: EntryNo) -> Result<Solid, WalkFault>
    ensures solid { IfOk result (λ s. s ≡ solid_of file.now no.0) }
    ensures holds { OnOk result (AllHold (places file.now no.0)) }
    ensures fault { IfErr result (IsFault (places file.now no.0)) }
    ensures only { AllHold (places file.now no.0) → Gives result (Ok (solid_of file.now no.0)) }
    ensures only_fault { (x : Named) → FirstFalse (places file.now no.0) x → Gives result (Err x) }
{
    let mut walker = Walker::new(alloc, file);
    let solid = walker.walk(alloc, no);
    drop(walker);
    solid
}
