//! Views of records, by the types of their entities.

ghost use Rattle.std.specs.Prelude.{◌≡◌, IfSome, IfNone};
ghost use Rattle.brep_lists.specs.Record.{Fits, Items, IsRecordOf, items_of};
ghost use Rattle.brep_lists.specs.declared.entity_kind.EntityKind.{EntityKind};
ghost use Rattle.brep_lists.specs.declared.entity_kind.EntityKind.TheVariants.{Solid as solid, Shell as shell, Face as face, Loop as «loop», EdgeList as edges, VertexList as vertices};

use brep_lists::{EdgeList, EntityKind, VertexList};
use brep_loops::{FaceRecord, LoopRecord, ShellRecord, SolidRecord};
use iges_fields::Values;

/// A view of a record, for each of the six types of entity.
pub trait Record<'a>: Sized + Drop {
    ghost kind: { EntityKind };

    ghost items: { Self → Items kind };

    /// The type of the entities whose records these are.
    fn kind() -> EntityKind
        ensures { result ≡ kind };

    /// What the values say; None where they don't fit the type.
    fn of(values: &'a Values) -> Option<Self>
        ensures some { IfSome result (λ record_of. Fits kind values.now (items record_of)) }
        ensures read { IfSome result (λ record_of. items record_of ≡ items_of kind values.now) }
        ensures none { IfNone result ((told : Items kind) → ¬ Fits kind values.now told) };

    /// What the values say, which are known to fit the type. Of most only a count is read.
    fn fitting(values: &'a Values) -> Self
        requires { IsRecordOf kind values.now }
        ensures { items result ≡ items_of kind values.now };
}

impl<'a> Record<'a> for SolidRecord<'a> {
    ghost kind = { solid };

    ghost items = { λ record_of. record_of };

    fn kind() -> EntityKind
        ensures { result ≡ solid }
    {
        EntityKind::Solid
    }

    fn of(values: &'a Values) -> Option<SolidRecord<'a>> {
        SolidRecord::of(values)
    }

    fn fitting(values: &'a Values) -> SolidRecord<'a> {
        SolidRecord::fitting(values)
    }
}

impl<'a> Record<'a> for ShellRecord<'a> {
    ghost kind = { shell };

    ghost items = { λ record_of. record_of };

    fn kind() -> EntityKind
        ensures { result ≡ shell }
    {
        EntityKind::Shell
    }

    fn of(values: &'a Values) -> Option<ShellRecord<'a>> {
        ShellRecord::of(values)
    }

    fn fitting(values: &'a Values) -> ShellRecord<'a> {
        ShellRecord::fitting(values)
    }
}

impl<'a> Record<'a> for FaceRecord<'a> {
    ghost kind = { face };

    ghost items = { λ record_of. record_of };

    fn kind() -> EntityKind
        ensures { result ≡ face }
    {
        EntityKind::Face
    }

    fn of(values: &'a Values) -> Option<FaceRecord<'a>> {
        FaceRecord::of(values)
    }

    fn fitting(values: &'a Values) -> FaceRecord<'a> {
        FaceRecord::fitting(values)
    }
}

impl<'a> Record<'a> for LoopRecord<'a> {
    ghost kind = { «loop» };

    ghost items = { λ record_of. record_of };

    fn kind() -> EntityKind
        ensures { result ≡ «loop» }
    {
        EntityKind::Loop
    }

    fn of(values: &'a Values) -> Option<LoopRecord<'a>> {
        LoopRecord::of(values)
    }

    fn fitting(values: &'a Values) -> LoopRecord<'a> {
        LoopRecord::fitting(values)
    }
}

impl<'a> Record<'a> for EdgeList<'a> {
    ghost kind = { edges };

    ghost items = { λ record_of. record_of };

    fn kind() -> EntityKind
        ensures { result ≡ edges }
    {
        EntityKind::EdgeList
    }

    fn of(values: &'a Values) -> Option<EdgeList<'a>> {
        EdgeList::of(values)
    }

    fn fitting(values: &'a Values) -> EdgeList<'a> {
        EdgeList::fitting(values)
    }
}

impl<'a> Record<'a> for VertexList<'a> {
    ghost kind = { vertices };

    ghost items = { λ record_of. record_of };

    fn kind() -> EntityKind
        ensures { result ≡ vertices }
    {
        EntityKind::VertexList
    }

    fn of(values: &'a Values) -> Option<VertexList<'a>> {
        VertexList::of(values)
    }

    fn fitting(values: &'a Values) -> VertexList<'a> {
        VertexList::fitting(values)
    }
}
