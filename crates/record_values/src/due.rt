//! What may be in a place of a record.

ghost use Rattle.std.specs.Prelude.{◌≡◌};
ghost use Rattle.record_values.specs.Due.{due_word, kind_word, slot_word};

use brep_lists::EntityKind;

/// One value of a record that is no count.
#[derive(Clone, Copy)]
pub enum ValueKind {
    /// The number of an entry: an integer.
    Pointer,
    /// An index in a list: an integer.
    Index,
    /// The integer 0 or 1.
    Flag,
    /// Whether a tuple is an edge or a vertex: the integer 0 or 1.
    Type,
    /// A real, an integer or a left-out value.
    Coordinate,
}

/// What a count of a record counts.
#[derive(Clone, Copy)]
pub enum Counted {
    Voids,
    Faces,
    Loops,
    Tuples,
    Curves,
    Edges,
    Vertices,
}

/// What is due at a place of a record.
#[derive(Clone, Copy)]
pub enum Due {
    /// The number of an entry of this kind.
    Record(EntityKind),
    /// The number of a curve or of a surface.
    Geometry,
    /// One value that is no count.
    Single(ValueKind),
    /// A count of items.
    Count,
    /// One of the integers and left-out values that follow the own values of a type.
    CountOrPointer,
}

// The words for the entity and the forms that are due at a place of a solid.
fn kind_word(kind: EntityKind) -> &'static str
    ensures { result.now ≡ kind_word kind }
{
    match kind {
        EntityKind::Solid => "solid form 0",
        EntityKind::Shell => "shell form 1",
        EntityKind::Face => "face form 0 1",
        EntityKind::Loop => "loop form 0 1",
        EntityKind::EdgeList => "edge-list form 0 1",
        EntityKind::VertexList => "vertex-list form 0 1",
    }
}

impl ValueKind {
    /// The word that is printed.
    pub fn word(self) -> &'static str
        ensures { result.now ≡ slot_word self }
    {
        match self {
            ValueKind::Pointer => "pointer",
            ValueKind::Index => "index",
            ValueKind::Flag => "flag",
            ValueKind::Type => "type",
            ValueKind::Coordinate => "coordinate",
        }
    }
}

impl Due {
    /// The words that are printed.
    pub fn word(self) -> &'static str
        ensures { result.now ≡ due_word self }
    {
        match self {
            Due::Record(kind) => kind_word(kind),
            Due::Geometry => "geometry",
            Due::Single(slot) => slot.word(),
            Due::Count => "count",
            Due::CountOrPointer => "count-or-pointer",
        }
    }
}
