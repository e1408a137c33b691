//! The faces of shells.

ghost use Rattle.std.specs.Prelude.{◌≡◌, ℤ, List, [], pos};
ghost use Rattle.record_paths.specs.Paths.{face_sited, faces_sited, sited_after};
ghost use Rattle.record_paths.specs.Searched.{Searched};

use crate::ended::Ended;
use crate::loops::search_loops;
use crate::naming::names_face;
use crate::path::{Path, Step};
use crate::records::face_record;
use brep_loops::ShellRecord;
use iges_base::EntryNo;
use iges_params::File;
use solid_data::Failing;

// Searches what the place of a face in a shell and its surface owe, and then the face.
fn search_face(
    file: &File,
    name: Failing,
    path: Path,
    shell: EntryNo,
    item: usize,
    number: i64,
) -> Result<(), Ended>
    ensures { (known : List ℤ) → Searched (face_sited file.now path
        (pos shell.0) item known number) name result }
{
    if names_face(name, shell, item, number) {
        return Err(Ended::Found(path));
    }
    let Some((entity, listed)) = face_record(file, number) else {
        return Err(Ended::Lost);
    };
    let inside = Path {
        shell: path.shell,
        face: Some(Step { entity, item }),
        the_loop: path.the_loop,
    };
    search_loops(file, name, inside, entity, &listed)
}

/// Searches what the faces of a shell owe.
pub fn search_faces(
    file: &File,
    name: Failing,
    path: Path,
    shell: EntryNo,
    listed: &ShellRecord<'_>,
) -> Result<(), Ended>
    ensures { (used : List ℤ) → Searched (sited_after
        (faces_sited file.now path (pos shell.0) used) [] listed.now) name result }
{
    'faces: for i in 0..listed.len() {
        let (number, _) = listed.item(i).unwrap();
        search_face(file, name, path, shell, i + 1, number)?;
    }
    Ok(())
}
