//! The entity types of a solid's topology.

ghost use Rattle.std.specs.Prelude.{◌≡◌, ◌↔◌, IsTrue, IfSome, IfNone};
ghost use Rattle.brep_lists.specs.Record.{HasForm, kind_of_type, type_number};
ghost use Rattle.brep_lists.specs.declared.entity_kind.EntityKind.{EntityKind};

/// A type of entity that describes a part of a solid: the manifold solid B-rep object, type 186 (IGES 5.3, 4.49), the
/// shell, 514 (4.149), the face, 510 (4.148), the loop, 508 (4.147), the list of edges, 504 (4.146), and the list of
/// vertices, 502 (4.145).
#[derive(Clone, Copy)]
pub enum EntityKind {
    Solid,
    Shell,
    Face,
    Loop,
    EdgeList,
    VertexList,
}

impl EntityKind {
    /// The entity type number (IGES 5.3, 4.49 and 4.145 to 4.149).
    pub fn type_number(self) -> i64
        ensures { result ≡ type_number self }
    {
        match self {
            EntityKind::Solid => 186,
            EntityKind::Shell => 514,
            EntityKind::Face => 510,
            EntityKind::Loop => 508,
            EntityKind::EdgeList => 504,
            EntityKind::VertexList => 502,
        }
    }

    /// Whether an entity of this type may have that form: a shell is closed, of form 1 (IGES 5.3, 4.149); a list, a
    /// loop and a face have form 1, for which form 0 is taken too.
    pub fn has_form(self, form: i64) -> bool
        ensures { IsTrue result ↔ HasForm self form }
    {
        match self {
            EntityKind::Solid => form == 0,
            EntityKind::Shell => form == 1,
            _ => form == 0 || form == 1,
        }
    }

    /// Whether an entity with this type number and form is one of this type, in a form that it may have.
    pub fn is_of(self, number: i64, form: i64) -> bool
        ensures { IsTrue result ↔ ((number ≡ type_number self) × HasForm self form) }
    {
        number == self.type_number() && self.has_form(form)
    }

    /// The type of that number; None where it is none of the six (IGES 5.3, 4.49 and 4.145 to 4.149).
    pub fn of_type(number: i64) -> Option<EntityKind>
        ensures is { result ≡ kind_of_type number }
        ensures some { IfSome result (λ kind. number ≡ type_number kind) }
        ensures none { IfNone result ((kind : EntityKind) → ¬ (number ≡ type_number kind)) }
    {
        match number {
            186 => Some(EntityKind::Solid),
            514 => Some(EntityKind::Shell),
            510 => Some(EntityKind::Face),
            508 => Some(EntityKind::Loop),
            504 => Some(EntityKind::EdgeList),
            502 => Some(EntityKind::VertexList),
            _ => None,
        }
    }
}
