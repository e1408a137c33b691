//! Which obligations bear the name of one that fails.

ghost use Rattle.std.specs.Prelude.{◌≡◌, ◌∷◌, ◌++◌, ◌↔◌, [], ℕ, ℤ, Bool, List, All, Some, pos, IsTrue};
ghost use Rattle.iges_params.specs.Contents.{Contents};
ghost use Rattle.brep_lists.specs.declared.entity_kind.EntityKind.{EntityKind};
ghost use Rattle.brep_walk.specs.Places.{NamesGeometry, item_places, edge_places};
ghost use Rattle.record_paths.specs.Paths.{naming_places, face_naming};
ghost use Rattle.record_paths.specs.Searched.{Bears};
ghost use Rattle.solid_data.specs.Obligations.{obligation, entry_number};
ghost use Rattle.solid_data.specs.declared.verdict.Rule.TheVariants.{BadGeometry};

use brep_lists::EdgeTuple;
use iges_base::EntryNo;
use solid_data::{Failing, Rule};

// Whether the name means this item of this entity.
fn is_at(name: Failing, entity: EntryNo, item: usize) -> bool
    ensures { IsTrue result ↔ ((name.entity.0 ≡ entity.0) × (name.place ≡ item)) }
{
    name.entity.0 == entity.0 && name.place as usize == item
}

// Whether the name means the entity itself that the number names; a negative number stands for 0.
fn is_of(name: Failing, number: i64) -> bool
    ensures { IsTrue result ↔ ((name.entity.0 ≡ entry_number number) × (name.place ≡ 0)) }
{
    i64::from(name.entity.0) == number.max(0) && name.place == 0
}

/// Whether an obligation on a place that names a record bears the name.
pub fn names_place(name: Failing, entity: EntryNo, item: usize, number: i64) -> bool
    ensures { (f : Contents) (kind : EntityKind) (known : List ℤ) → IsTrue result
        ↔ Bears (naming_places f (pos entity.0) item kind known number) name }
{
    match name.rule {
        Rule::NoEntry | Rule::WrongKind | Rule::Twice => is_at(name, entity, item),
        Rule::BadLayout => is_of(name, number),
        _ => false,
    }
}

/// Whether an obligation on the place of a face or on its surface bears the name.
pub fn names_face(name: Failing, shell: EntryNo, item: usize, number: i64) -> bool
    ensures { (f : Contents) (known : List ℤ) → IsTrue result
        ↔ Bears (face_naming f (pos shell.0) item known number) name }
{
    match name.rule {
        Rule::NoEntry | Rule::WrongKind | Rule::Twice => is_at(name, shell, item),
        Rule::BadLayout | Rule::BadGeometry => is_of(name, number),
        _ => false,
    }
}

/// Whether an obligation on the list or the index of a tuple, or on its curves, bears the name.
pub fn names_tuple(name: Failing, the_loop: EntryNo, item: usize, list: i64) -> bool
    ensures { (f : Contents) (kind : EntityKind) (index : ℤ) (count : ℕ) (curves : List (Bool × ℤ)) →
        IsTrue result ↔ Bears (item_places f (pos the_loop.0) item kind list index count ++ (obligation BadGeometry the_loop.0 item (All (λ (c : Bool × ℤ). NamesGeometry f c.1) curves) ∷ [])) name }
{
    match name.rule {
        Rule::NoEntry | Rule::WrongKind | Rule::BadIndex | Rule::BadGeometry => is_at(
            name, the_loop, item,
        ),
        Rule::BadLayout => is_of(name, list),
        _ => false,
    }
}

/// Whether an obligation on the curve or the ends of an edge bears the name.
pub fn names_edge(name: Failing, list: EntryNo, index: usize, edge: EdgeTuple) -> bool
    ensures { (f : Contents) → IsTrue result
        ↔ Bears (edge_places f (pos list.0) index (Some edge)) name }
{
    match name.rule {
        Rule::NoEntry | Rule::WrongKind | Rule::BadIndex | Rule::BadGeometry => is_at(
            name, list, index,
        ),
        Rule::BadLayout => is_of(name, edge.start_list) || is_of(name, edge.end_list),
        _ => false,
    }
}
