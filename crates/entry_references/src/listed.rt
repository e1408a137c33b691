//! What the type of an entry says of its own values.

ghost use Rattle.entry_references.specs.ListedTypes.{IsTypeOf, own_by_type};
ghost use Rattle.entry_references.specs.Refs.{is_listed};
ghost use Rattle.iges_base.specs.declared.TheConstants.{FILE_LIMIT};
ghost use Rattle.std.specs.Prelude.{◌≡◌, ◌≤◌, [], false, IfOk, MatchOption, length};

use crate::layout::{Layout, layout_of};
use crate::own::Own;
use crate::own_kinds::own_of_kind;
use crate::own_table::own_in;
use brep_lists::EntityKind;
use iges_base::{ItemList, NoMemory};
use iges_directory::Entry;
use iges_fields::Values;
use std::alloc::Global;

/// A type that extraction follows.
#[derive(Clone, Copy)]
pub enum ListedType {
    /// One of a solid's own records.
    Solid(EntityKind),
    /// A type of the table.
    Other(Layout),
}

/// The type of an entry, where extraction follows it.
pub fn type_of(entry: &Entry) -> Option<ListedType>
    ensures { MatchOption result (is_listed (entry.now, []) ≡ false) (IsTypeOf entry.now) }
{
    if let Some(kind) = EntityKind::of_type(entry.kind) {
        return Some(ListedType::Solid(kind));
    }
    match layout_of(entry) {
        Some(layout) => Some(ListedType::Other(layout)),
        None => None,
    }
}

/// The own values of a record of a type; None where the record doesn't fit it. The places are put into the empty list.
pub fn own_of(
    alloc: Global,
    spare: ItemList<usize>,
    listed: ListedType,
    values: &Values,
) -> Result<Option<Own>, NoMemory>
    requires few { length values.now ≤ FILE_LIMIT }
    requires empty { spare ≡ [] }
    ensures { IfOk result (λ own. own ≡ own_by_type listed values.now) }
{
    match listed {
        ListedType::Solid(kind) => own_of_kind(alloc, spare, kind, values),
        ListedType::Other(layout) => own_in(alloc, spare, layout, values),
    }
}
