//! The tuples of loops.

ghost use Rattle.std.specs.Prelude.{◌≡◌, ◌∷◌, ◌<◌, ◌^◌, [], map, length, ℤ, Bool, pos, true, false, Some, All, IsTrue, ◌↔◌, slice_get, IfSome, IfOk, IfErr, OnOk};
ghost use Rattle.std.specs.List.{list_any};
ghost use Rattle.indexmap.specs.IndexSet.{insert_key, insert_all};
ghost use Rattle.brep_walk.specs.Here.{used_here, tuple_here, tuples_in_loop};
ghost use Rattle.brep_walk.specs.Places.{NamesGeometry, edge_at, edge_places};
ghost use Rattle.brep_walk.specs.SolidOf.{use_by, ends_named};
ghost use Rattle.brep_walk.specs.Stands.{Stands};
ghost use Rattle.brep_walk.specs.Walked.{IsFault};
ghost use Rattle.solid_data.specs.Obligations.{AllHold};
ghost use Rattle.solid_data.specs.Ring.{place_of};
ghost use Rattle.solid_data.specs.SolidData.{same_edge, same_vertex};

use crate::fault::WalkFault;
use crate::naming::{NamedEdge, names_geometry};
use crate::state::WalkState;
use brep_lists::EdgeTuple;
use brep_loops::{LoopRecord, LoopTuple};
use iges_base::EntryNo;
use iges_params::File;
use solid_data::{EdgeId, EdgeKey, LoopUse, Place, Rule, Uses};
use std::alloc::Global;

// Whether the i-th parameter curve of the tuple, from 0, names geometry where there is one.
fn curve_names_geometry(file: &File, tuple: &LoopTuple<'_>, i: usize) -> bool
    ensures { IsTrue result ↔ IfSome (slice_get tuple.now.curves i)
        (λ curve. NamesGeometry file.now curve.1) }
{
    match tuple.curve(i) {
        Some(curve) => names_geometry(file, curve),
        None => true,
    }
}

// Whether each parameter curve of the tuple names geometry.
fn curves_name_geometry(file: &File, tuple: &LoopTuple<'_>) -> bool
    ensures { IsTrue result ↔ All (λ (c : Bool × ℤ). NamesGeometry file.now c.1) tuple.now.curves }
{
    'curves: for i in 0..tuple.curve_count() {
        if !curve_names_geometry(file, tuple, i) {
            return false;
        }
    }
    true
}

impl<'a> WalkState<'a> {
    ghost use Rattle.brep_walk.specs.Walks.{IsMadeAt, NamesAlike, Walks};

    // The use that a tuple of a vertex is.
    fn vertex_use(&mut self, at: Place, tuple: &LoopTuple<'_>) -> Result<LoopUse, WalkFault>
        requires vertex { tuple.now.is_vertex ≡ true }
        requires stands { Stands self.old.lists self.old.lists self.old.numbering }
        ensures walks { Walks self.old self.new result (tuple.now ∷ []) }
        ensures others { OnOk result (NamesAlike self.old self.new) }
        ensures made { IfOk result (IsMadeAt self.new (λ keys. use_by keys tuple.now)) }
        ensures holds { OnOk result (AllHold (used_here self.old.lists at tuple.now true)) }
        ensures fault { IfErr result (IsFault (used_here self.old.lists at tuple.now true)) }
    {
        let key = self.lists.vertex(at, tuple.list(), tuple.index())?;
        let vertex = self.numbering.vertex(key)?;
        Ok(LoopUse::VertexUse { vertex })
    }

    // The number of a new edge.
    fn new_edge(&mut self, key: EdgeKey, ends: EdgeTuple) -> Result<EdgeId, WalkFault>
        requires new { list_any (same_edge key) self.old.numbering.keys.edges ≡ false }
        requires ends { edge_at self.old.lists (pos key.«list».0) key.index ≡ Some ends }
        requires stands { Stands self.old.lists self.old.lists self.old.numbering }
        ensures file { self.new.lists ≡ self.old.lists }
        ensures stands { OnOk result (Stands self.old.lists self.new.lists self.new.numbering) }
        ensures keys { OnOk result (self.new.numbering.keys ≡ record {
          edges = insert_key same_edge self.old.numbering.keys.edges key;
          vertices = insert_all same_vertex self.old.numbering.keys.vertices
              (ends_named (Some ends));
        }) }
        ensures others { OnOk result (NamesAlike self.old self.new) }
        ensures id { IfOk result
            (λ id. id.0 ≡ place_of same_edge self.new.numbering.keys.edges key) }
        ensures holds { OnOk result (AllHold (edge_places self.old.lists
            (pos key.«list».0) key.index (Some ends))) }
        ensures fault { IfErr result (IsFault (edge_places self.old.lists
            (pos key.«list».0) key.index (Some ends))) }
    {
        let place = Place {
            entity: key.list,
            item: key.index,
        };
        let (from, to) = self.lists.ends(place, ends)?;
        Ok(self.numbering.new_edge(key, from, to)?)
    }

    // The use that a tuple of an edge is. Where the edge is numbered, its curve and its vertices were looked at before.
    fn edge_use(&mut self, at: Place, tuple: &LoopTuple<'_>) -> Result<LoopUse, WalkFault>
        requires edge { tuple.now.is_vertex ≡ false }
        requires stands { Stands self.old.lists self.old.lists self.old.numbering }
        ensures walks { Walks self.old self.new result (tuple.now ∷ []) }
        ensures others { OnOk result (NamesAlike self.old self.new) }
        ensures made { IfOk result (IsMadeAt self.new (λ keys. use_by keys tuple.now)) }
        ensures holds { OnOk result (AllHold (used_here self.old.lists at tuple.now false)) }
        ensures fault { IfErr result (IsFault (used_here self.old.lists at tuple.now false)) }
    {
        let along = tuple.flag();
        match self
            .lists
            .edge(&self.numbering, at, tuple.list(), tuple.index())?
        {
            NamedEdge::Known(edge) => Ok(LoopUse::EdgeUse { edge, along }),
            NamedEdge::New(key, ends) => {
                let edge = self.new_edge(key, ends)?;
                Ok(LoopUse::EdgeUse { edge, along })
            }
        }
    }

    // The use that a tuple is.
    fn tuple_use(&mut self, at: Place, tuple: &LoopTuple<'_>) -> Result<LoopUse, WalkFault>
        requires { Stands self.old.lists self.old.lists self.old.numbering }
        ensures walks { Walks self.old self.new result (tuple.now ∷ []) }
        ensures others { OnOk result (NamesAlike self.old self.new) }
        ensures made { IfOk result (IsMadeAt self.new (λ keys. use_by keys tuple.now)) }
        ensures holds { OnOk result (AllHold
            (used_here self.old.lists at tuple.now tuple.now.is_vertex)) }
        ensures fault { IfErr result (IsFault
            (used_here self.old.lists at tuple.now tuple.now.is_vertex)) }
    {
        if tuple.is_vertex() {
            self.vertex_use(at, tuple)
        } else {
            self.edge_use(at, tuple)
        }
    }

    /// The use that the tuple at a place is, where all that it names is there. Where that is known, its curves aren't
    /// looked at.
    pub fn walk_tuple(
        &mut self,
        at: Place,
        tuple: &LoopTuple<'_>,
        is_known: bool,
    ) -> Result<LoopUse, WalkFault>
        requires stands { Stands self.old.lists self.old.lists self.old.numbering }
        requires known { IsTrue is_known → AllHold (tuple_here self.old.lists at tuple.now) }
        ensures walks { Walks self.old self.new result (tuple.now ∷ []) }
        ensures others { OnOk result (NamesAlike self.old self.new) }
        ensures made { IfOk result (IsMadeAt self.new (λ keys. use_by keys tuple.now)) }
        ensures holds { OnOk result (AllHold (tuple_here self.old.lists at tuple.now)) }
        ensures fault { IfErr result (IsFault (tuple_here self.old.lists at tuple.now)) }
    {
        let made = self.tuple_use(at, tuple)?;
        if !is_known && !curves_name_geometry(self.lists.file(), tuple) {
            return Err(WalkFault::Fails(at.fails(Rule::BadGeometry)));
        }
        Ok(made)
    }

    /// The uses that the tuples of a loop are. Where it is known that all that they name is there, their curves aren't
    /// looked at.
    pub fn walk_tuples(
        &mut self,
        alloc: Global,
        no: EntryNo,
        listed: &LoopRecord<'_>,
        is_known: bool,
    ) -> Result<Uses, WalkFault>
        requires few { length listed.now < 2 ^ 31 }
        requires stands { Stands self.old.lists self.old.lists self.old.numbering }
        requires known { IsTrue is_known → AllHold (tuples_in_loop self.old.lists no listed.now) }
        ensures walks { Walks self.old self.new result listed.now }
        ensures others { OnOk result (NamesAlike self.old self.new) }
        ensures made { IfOk result (IsMadeAt self.new (λ keys. map (use_by keys) listed.now)) }
        ensures holds { OnOk result (AllHold (tuples_in_loop self.old.lists no listed.now)) }
        ensures fault { IfErr result (IsFault (tuples_in_loop self.old.lists no listed.now)) }
    {
        let mut uses = Uses::new(alloc);
        let mut item = 0;
        'tuples: for tuple in listed.tuples() {
            item += 1;
            let made = self.walk_tuple(Place { entity: no, item }, &tuple, is_known)?;
            uses.push(made)?;
        }
        Ok(uses)
    }
}
