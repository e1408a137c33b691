//! The shells of solids.

ghost use Rattle.std.specs.Prelude.{◌≡◌, ◌∷◌, ℤ, List, [], pos};
ghost use Rattle.record_paths.specs.Paths.{shell_sited, shells_sited, sited_after};
ghost use Rattle.record_paths.specs.Searched.{Searched};

use crate::ended::Ended;
use crate::faces::search_faces;
use crate::naming::names_place;
use crate::path::{Path, Step};
use crate::records::shell_record;
use brep_loops::SolidRecord;
use iges_base::EntryNo;
use iges_params::File;
use solid_data::Failing;

// Searches what the place of a shell in a solid owes, and then the shell.
fn search_shell(
    file: &File,
    name: Failing,
    path: Path,
    solid: EntryNo,
    item: usize,
    number: i64,
) -> Result<(), Ended>
    ensures { (known : List ℤ) → Searched (shell_sited file.now path
        (pos solid.0) item known number) name result }
{
    if names_place(name, solid, item, number) {
        return Err(Ended::Found(path));
    }
    let Some((entity, listed)) = shell_record(file, number) else {
        return Err(Ended::Lost);
    };
    let inside = Path {
        shell: Some(Step { entity, item }),
        face: path.face,
        the_loop: path.the_loop,
    };
    search_faces(file, name, inside, entity, &listed)
}

/// Searches what the shells of a solid owe.
pub fn search_shells(
    file: &File,
    name: Failing,
    path: Path,
    solid: EntryNo,
    listed: &SolidRecord<'_>,
) -> Result<(), Ended>
    ensures { Searched (sited_after (shells_sited file.now path (pos solid.0)) [] (listed.now.outer
        ∷ listed.now.voids)) name result }
{
    'shells: for i in 0..listed.len() {
        let (number, _) = listed.item(i).unwrap();
        search_shell(file, name, path, solid, i + 1, number)?;
    }
    Ok(())
}
