//! The records of a file, and its lists of edges and of vertices. What was found out about one is remembered.

ghost use Rattle.brep_lists.specs.declared.entity_kind.EntityKind.TheVariants.{EdgeList as edges, VertexList as vertices};
ghost use Rattle.brep_walk.specs.Here.{record_here, vertex_here, edge_here, ends_here};
ghost use Rattle.brep_walk.specs.Counts.{item_count};
ghost use Rattle.brep_walk.specs.Kept.{IsVertexList};
ghost use Rattle.brep_walk.specs.Known.{uses_places};
ghost use Rattle.brep_walk.specs.NamedEdges.{IsNamedEdge};
ghost use Rattle.brep_walk.specs.Places.{told, edge_at, IsIndex, NamesKind, HasRecordOf};
ghost use Rattle.brep_walk.specs.SolidOf.{edge_key, vertex_key};
ghost use Rattle.brep_walk.specs.Walked.{IsFault};
ghost use Rattle.brep_walk.specs.declared.fault.WalkFault.TheVariants.{Fails};
ghost use Rattle.iges_params.specs.Limits.{FitsLimits};
ghost use Rattle.iges_params.specs.Named.{values_of};
ghost use Rattle.solid_data.specs.Obligations.{AllHold, FirstFalse, obligation, entry_number};
ghost use Rattle.solid_data.specs.declared.verdict.Rule.TheVariants.{BadIndex, BadLayout};
ghost use Rattle.std.specs.Prelude.{◌≡◌, ◌∷◌, ◌<◌, ◌^◌, ◌-◌, [], pos, length, slice_get, IfOk, IfErr, OnOk, IsTrue, IfSome};

use crate::fault::WalkFault;
use crate::naming::{NamedEdge, entry_at, index_in, names_geometry};
use crate::records::Record;
use brep_lists::{EdgeList, EdgeTuple, VertexList};
use brep_numbering::{ListTable, Mark, Marks, Numbering};
use iges_base::{EntryNo, NoMemory};
use iges_fields::Values;
use iges_params::File;
use solid_data::{EdgeKey, Failing, Place, Rule, VertexKey};
use std::alloc::Global;
use std::marker::Model;

/// The lists of edges and of vertices of a file, and what is known of its records. A record is judged once, however many
/// solids name it, and a list that was looked at is found by its entry.
#[derive(Drop)]
pub struct Lists<'a> {
    pub file: &'a File,
    pub marks: Marks,
    pub failed: ListTable<Failing>,
    edges: ListTable<EdgeList<'a>>,
    vertices: ListTable<u32>,
}

impl<'a> Model for Lists<'a> {
    ghost use Rattle.iges_params.specs.Contents.{Contents};
    ghost use Rattle.brep_walk.specs.Kept.{AreKept};
    ghost use Rattle.brep_walk.specs.Known.{AreKnown};

    ghost Value = { Contents };

    ghost view = { λ lists. lists.file.now };

    ghost invariant = { λ lists. AreKept lists.file.now lists.edges lists.vertices
        × AreKnown lists.file.now lists.marks lists.failed };
}

// The edge of a list that the index at a place names. Where it is numbered, the list isn't read.
fn edge_of(
    numbering: &Numbering,
    no: EntryNo,
    list: &EdgeList<'_>,
    at: Place,
    index: i64,
) -> Result<NamedEdge, Failing>
    requires { length list.now < 2 ^ 31 }
    ensures holds { OnOk result (IsIndex index (length list.now)) }
    ensures edge { IfOk result (IsNamedEdge numbering.now.keys
        (record { «list» = no; index = entry_number index })
        (slice_get list.now (entry_number index - 1))) }
    ensures fails { IfErr result (FirstFalse
        (obligation BadIndex at.entity.0 at.item (IsIndex index (length list.now)) ∷ [])) }
{
    let index = index_in(list.len() as u32, at, index)?;
    let key = EdgeKey { list: no, index };
    if let Some(edge) = numbering.known_edge(key) {
        return Ok(NamedEdge::Known(edge));
    }
    let ends = list.tuple(index as usize - 1).unwrap();
    Ok(NamedEdge::New(key, ends))
}

// That the record of an entry doesn't fit its type.
fn bad_layout(entity: EntryNo) -> WalkFault
    ensures { result ≡ Fails (record { rule = BadLayout; entity = entity; place = 0 }) }
{
    WalkFault::Fails(Place { entity, item: 0 }.fails(Rule::BadLayout))
}

impl<'a> Lists<'a> {
    /// The lists of a file, none of which was looked at yet.
    pub fn new(alloc: Global, file: &'a File) -> Lists<'a>
        ensures { result ≡ file.now }
    {
        Lists {
            file,
            marks: Marks::new(alloc),
            failed: ListTable::new(alloc),
            edges: ListTable::new(alloc),
            vertices: ListTable::new(alloc),
        }
    }

    // The entry of the vertex list that the number at a place names, and how many vertices it has.
    fn vertex_list(&mut self, at: Place, number: i64) -> Result<(EntryNo, u32), WalkFault>
        ensures file { self.new ≡ self.old }
        ensures holds { OnOk result (AllHold (record_here self.old at vertices number)) }
        ensures list { IfOk result (IsVertexList self.old number) }
        ensures fault { IfErr result (IsFault (record_here self.old at vertices number)) }
    {
        if let Some(kept) = self.vertices.get(number) {
            return Ok(*kept);
        }
        let (no, list) = self.record::<VertexList<'a>>(at, number)?;
        let count = list.len() as u32;
        self.vertices.keep(no, count)?;
        Ok((no, count))
    }

    /// The vertex that a list and an index at a place name.
    pub fn vertex(&mut self, at: Place, number: i64, index: i64) -> Result<VertexKey, WalkFault>
        ensures file { self.new ≡ self.old }
        ensures holds { OnOk result (AllHold (vertex_here self.old at number index)) }
        ensures vertex { IfOk result (λ key. key ≡ vertex_key number index) }
        ensures fault { IfErr result (IsFault (vertex_here self.old at number index)) }
    {
        let (list, count) = self.vertex_list(at, number)?;
        let index = index_in(count, at, index)?;
        Ok(VertexKey { list, index })
    }

    /// The edge that a list and an index at a place name.
    pub fn edge(
        &mut self,
        numbering: &Numbering,
        at: Place,
        number: i64,
        index: i64,
    ) -> Result<NamedEdge, WalkFault>
        ensures file { self.new ≡ self.old }
        ensures holds { OnOk result (AllHold (edge_here self.old at number index)) }
        ensures edge { IfOk result (IsNamedEdge numbering.now.keys (edge_key number index)
            (edge_at self.old number (entry_number index))) }
        ensures fault { IfErr result (IsFault (edge_here self.old at number index)) }
    {
        if let Some((no, list)) = self.edges.get(number) {
            return Ok(edge_of(numbering, *no, list, at, index)?);
        }
        let (no, list) = self.record::<EdgeList<'a>>(at, number)?;
        let edge = edge_of(numbering, no, &list, at, index);
        self.edges.keep(no, list)?;
        Ok(edge?)
    }

    /// The start and the end of the edge at a place, whose curve must name geometry.
    pub fn ends(&mut self, at: Place, edge: EdgeTuple) -> Result<(VertexKey, VertexKey), WalkFault>
        ensures file { self.new ≡ self.old }
        ensures holds { OnOk result (AllHold (ends_here self.old at edge)) }
        ensures ends { IfOk result (λ ends. (ends.0 ≡ vertex_key edge.start_list edge.start_index)
            × (ends.1 ≡ vertex_key edge.end_list edge.end_index)) }
        ensures fault { IfErr result (IsFault (ends_here self.old at edge)) }
    {
        if !names_geometry(self.file, edge.curve) {
            return Err(WalkFault::Fails(at.fails(Rule::BadGeometry)));
        }
        let from = self.vertex(at, edge.start_list, edge.start_index)?;
        let to = self.vertex(at, edge.end_list, edge.end_index)?;
        Ok((from, to))
    }

    /// The file that the lists are of.
    pub fn file(&self) -> &'a File
        ensures { result.now ≡ self.now }
    {
        self.file
    }

    // What the record of an entry describes, which is judged unless that was done before.
    fn judged<R: Record<'a>>(&mut self, no: EntryNo, values: &'a Values) -> Result<R, WalkFault>
        requires kind { NamesKind R.kind self.old (pos no.0) }
        requires values { values.now ≡ values_of self.old (pos no.0) }
        ensures file { self.new ≡ self.old }
        ensures holds { OnOk result (HasRecordOf R.kind self.old (pos no.0)) }
        ensures read { IfOk result (λ r. R.items r ≡ told R.kind self.old (pos no.0)) }
        ensures fault { IfErr result (IsFault (obligation BadLayout no.0 0
            (HasRecordOf R.kind self.old (pos no.0)) ∷ [])) }
    {
        match self.marks.get(no) {
            Mark::Unknown => {}
            Mark::Misfits => return Err(bad_layout(no)),
            Mark::Fits | Mark::Walked => return Ok(R::fitting(values)),
        }
        match R::of(values) {
            Some(record) => {
                self.marks.set(no, Mark::Fits)?;
                Ok(record)
            }
            None => {
                self.marks.set(no, Mark::Misfits)?;
                Err(bad_layout(no))
            }
        }
    }

    /// The record that the number at a place names, and its entry.
    pub fn record<R: Record<'a>>(
        &mut self,
        at: Place,
        number: i64,
    ) -> Result<(EntryNo, R), WalkFault>
        ensures file { self.new ≡ self.old }
        ensures holds { OnOk result (AllHold (record_here self.old at R.kind number)) }
        ensures named { IfOk result (λ r. (number ≡ pos r.0.0)
            × (R.items r.1 ≡ told R.kind self.old number)) }
        ensures few { IfOk result (λ r. item_count R.kind (R.items r.1) < 2 ^ 31) }
        ensures limits { FitsLimits self.old }
        ensures fault { IfErr result (IsFault (record_here self.old at R.kind number)) }
    {
        let named = entry_at(self.file, at, R::kind(), number)?;
        let record = self.judged::<R>(named.no, named.values)?;
        Ok((named.no, record))
    }

    /// How the walk of a loop's tuples failed before, where it did.
    pub fn failing_of(&self, no: EntryNo) -> Option<Failing>
        ensures { IfSome result (FirstFalse (uses_places self.now (pos no.0))) }
    {
        match self.failed.get(i64::from(no.0)) {
            Some((_, failing)) => Some(*failing),
            None => None,
        }
    }

    /// Remembers how the walk of a loop's tuples failed.
    pub fn keep_failing(&mut self, no: EntryNo, failing: Failing) -> Result<(), NoMemory>
        requires { FirstFalse (uses_places self.old (pos no.0)) failing }
        ensures { self.new ≡ self.old }
    {
        self.failed.keep(no, failing)
    }

    /// Whether it is known that all that a loop's tuples name is there.
    pub fn is_walked(&self, no: EntryNo) -> bool
        ensures { IsTrue result → AllHold (uses_places self.now (pos no.0)) }
    {
        self.marks.get(no) == Mark::Walked
    }

    /// Remembers that all that a loop's tuples name is there.
    pub fn keep_walked(&mut self, no: EntryNo) -> Result<(), NoMemory>
        requires { AllHold (uses_places self.old (pos no.0)) }
        ensures { self.new ≡ self.old }
    {
        if self.marks.get(no) == Mark::Fits {
            self.marks.set(no, Mark::Walked)?;
        }
        Ok(())
    }
}
