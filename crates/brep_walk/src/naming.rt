//! What the numbers and the indices in records name.

ghost use Rattle.brep_lists.specs.Record.{HasForm, type_number};
ghost use Rattle.brep_lists.specs.declared.entity_kind.EntityKind.{EntityKind};
ghost use Rattle.brep_walk.specs.Places.{NamesGeometry, entry_places, IsIndex};
ghost use Rattle.iges_params.specs.Limits.{FitsLimits};
ghost use Rattle.iges_params.specs.Named.{values_of};
ghost use Rattle.solid_data.specs.Obligations.{AllHold, FirstFalse, obligation};
ghost use Rattle.solid_data.specs.declared.verdict.Rule.TheVariants.{BadGeometry, BadIndex};
ghost use Rattle.std.specs.Prelude.{◌≡◌, ◌↔◌, IsTrue, ◌∷◌, [], pos, IfOk, IfErr, OnOk};

use brep_lists::{EdgeTuple, EntityKind};
use iges_base::EntryNo;
use iges_directory::Entry;
use iges_fields::Values;
use iges_params::File;
use solid_data::{EdgeId, EdgeKey, Failing, Place, Rule};

// Whether the entry has the type, and a form that is accepted.
fn is_of_kind(entry: &Entry, kind: EntityKind) -> bool
    ensures { IsTrue result ↔ ((entry.now.kind ≡ type_number kind) × HasForm kind entry.now.form) }
{
    kind.is_of(entry.kind, entry.form)
}

// Whether the entry's type is none of the six of topology.
fn is_geometry(entry: &Entry) -> bool
    ensures { IsTrue result ↔ ((kind : EntityKind) → ¬ (entry.now.kind ≡ type_number kind)) }
{
    EntityKind::of_type(entry.kind).is_none()
}

/// An entry that a number names, and the values of its record.
#[derive(Clone, Copy)]
pub struct Named<'a> {
    pub no: EntryNo,
    pub values: &'a Values,
}

/// An edge that a tuple names, by the edges that are numbered so far.
#[derive(Clone, Copy)]
pub enum NamedEdge {
    /// One that is numbered.
    Known(EdgeId),
    /// A new one, and what its list says of it.
    New(EdgeKey, EdgeTuple),
}

/// The entry of a kind that the number at a place names.
pub fn entry_at(file: &File, at: Place, kind: EntityKind, number: i64) -> Result<Named<'_>, Failing>
    ensures holds { OnOk result (AllHold (entry_places file.now (pos at.entity.0) at.item
        kind number)) }
    ensures named { IfOk result (λ named. (number ≡ pos named.no.0)
        × (named.values.now ≡ values_of file.now number)) }
    ensures fails { IfErr result (FirstFalse
        (entry_places file.now (pos at.entity.0) at.item kind number)) }
    ensures limits { FitsLimits file.now }
{
    let Some(no) = file.entry_no_of(number) else {
        return Err(at.fails(Rule::NoEntry));
    };
    let (Some(entry), Some(values)) = (file.entry(no), file.values(no)) else {
        return Err(at.fails(Rule::NoEntry));
    };
    if !is_of_kind(entry, kind) {
        return Err(at.fails(Rule::WrongKind));
    }
    Ok(Named { no, values })
}

/// Whether the number names a surface or a curve: an entry of none of the six types of topology.
pub fn names_geometry(file: &File, number: i64) -> bool
    ensures { IsTrue result ↔ NamesGeometry file.now number }
{
    let Some(no) = file.entry_no_of(number) else {
        return false;
    };
    match file.entry(no) {
        Some(entry) => is_geometry(entry),
        None => false,
    }
}

/// The index that is at a place, where it is one of a list of so many items, from 1.
pub fn index_in(count: u32, at: Place, index: i64) -> Result<u32, Failing>
    ensures holds { OnOk result (IsIndex index count) }
    ensures index { IfOk result (λ i. index ≡ pos i) }
    ensures fails { IfErr result (FirstFalse
        (obligation BadIndex at.entity.0 at.item (IsIndex index count) ∷ [])) }
{
    match u32::try_from(index) {
        Ok(i) if 1 <= i && i <= count => Ok(i),
        _ => Err(at.fails(Rule::BadIndex)),
    }
}
