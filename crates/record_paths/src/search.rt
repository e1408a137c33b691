//! The path to the place that fails.

ghost use Rattle.std.specs.Prelude.{◌≡◌, ◌++◌, [], ◌∷◌, pos, Some, None, IsTrue, ◌↔◌};
ghost use Rattle.brep_lists.specs.declared.entity_kind.EntityKind.TheVariants.{Solid as solid};
ghost use Rattle.iges_params.specs.Contents.{Contents};
ghost use Rattle.brep_walk.specs.Places.{HasRecordOf, entry_places, places, shells};
ghost use Rattle.record_paths.specs.Paths.{on, in_solid, sited, sited_after, shells_sited, IsPathTo};
ghost use Rattle.record_paths.specs.Searched.{Bears, Searched};
ghost use Rattle.solid_data.specs.Obligations.{FirstFalse, obligation};
ghost use Rattle.solid_data.specs.declared.verdict.Rule.TheVariants.{BadLayout};

use crate::ended::Ended;
use crate::path::Path;
use crate::records::solid_record;
use crate::shells::search_shells;
use iges_base::EntryNo;
use iges_params::File;
use solid_data::{Failing, Rule};

// Whether the name says that the number names no solid.
fn asks_for_solid(name: Failing, no: EntryNo) -> bool
    ensures { (f : Contents) → IsTrue result
        ↔ Bears (entry_places f (pos no.0) 0 solid (pos no.0)) name }
{
    matches!(name.rule, Rule::NoEntry | Rule::WrongKind) && name.entity.0 == no.0 && name.place == 0
}

// Searches what a solid's record owes, and then its shells.
fn search_solid(file: &File, name: Failing, no: EntryNo) -> Result<(), Ended>
    ensures { Searched (on (Some in_solid) (obligation BadLayout no.0 0 (HasRecordOf solid file.now (pos no.0)) ∷ [])
        ++ sited_after (shells_sited file.now in_solid (pos no.0)) [] (shells file.now (pos no.0))) name result }
{
    let path = Path {
        shell: None,
        face: None,
        the_loop: None,
    };
    if name.rule == Rule::BadLayout && name.entity.0 == no.0 && name.place == 0 {
        return Err(Ended::Found(path));
    }
    let Some((entity, listed)) = solid_record(file, i64::from(no.0)) else {
        return Err(Ended::Lost);
    };
    search_shells(file, name, path, entity, &listed)
}

/// The path to the place of a solid's records that fails first: through the shell, the face and the loop among whose
/// own obligations the failing one is. What a record's item owes, and the surface of a face, belong to the record
/// that has the item; None where the number names no solid. It takes no memory, and one pass over the records up to
/// the place.
pub fn path_of(file: &File, no: EntryNo, failing: Failing) -> Option<Path>
    requires { FirstFalse (places file.now no.0) failing }
    ensures { IsPathTo failing (sited file.now no.0) result }
{
    if asks_for_solid(failing, no) {
        return None;
    }
    match search_solid(file, failing, no) {
        Err(Ended::Found(path)) => Some(path),
        Err(Ended::Lost) => None,
        Ok(()) => None,
    }
}
