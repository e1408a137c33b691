//! The loops of faces.

ghost use Rattle.std.specs.Prelude.{◌≡◌, ℤ, List, [], pos};
ghost use Rattle.record_paths.specs.Paths.{loop_sited, loops_sited, sited_after};
ghost use Rattle.record_paths.specs.Searched.{Searched};

use crate::ended::Ended;
use crate::naming::names_place;
use crate::path::{Path, Step};
use crate::records::loop_record;
use crate::tuples::search_tuples;
use brep_loops::FaceRecord;
use iges_base::EntryNo;
use iges_params::File;
use solid_data::Failing;

// Searches what the place of a loop in a face owes, and then the loop.
fn search_loop(
    file: &File,
    name: Failing,
    path: Path,
    face: EntryNo,
    item: usize,
    number: i64,
) -> Result<(), Ended>
    ensures { (known : List ℤ) → Searched (loop_sited file.now path
        (pos face.0) item known number) name result }
{
    if names_place(name, face, item, number) {
        return Err(Ended::Found(path));
    }
    let Some((entity, listed)) = loop_record(file, number) else {
        return Err(Ended::Lost);
    };
    let inside = Path {
        shell: path.shell,
        face: path.face,
        the_loop: Some(Step { entity, item }),
    };
    search_tuples(file, name, inside, entity, &listed)
}

/// Searches what the loops of a face owe.
pub fn search_loops(
    file: &File,
    name: Failing,
    path: Path,
    face: EntryNo,
    listed: &FaceRecord<'_>,
) -> Result<(), Ended>
    ensures { (used : List ℤ) → Searched (sited_after
        (loops_sited file.now path (pos face.0) used) [] listed.now.loops) name result }
{
    'loops: for i in 0..listed.len() {
        let number = listed.item(i).unwrap();
        search_loop(file, name, path, face, i + 1, number)?;
    }
    Ok(())
}
