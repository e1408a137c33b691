//! The tuples of loops.

ghost use Rattle.std.specs.Prelude.{◌≡◌, [], pos, Some};
ghost use Rattle.brep_walk.specs.Places.{tuple_at};
ghost use Rattle.record_paths.specs.Paths.{on, sited_after, tuples_sited};
ghost use Rattle.record_paths.specs.Searched.{Searched};

use crate::edges::names_used_edge;
use crate::ended::Ended;
use crate::naming::names_tuple;
use crate::path::Path;
use brep_loops::{LoopRecord, LoopTuple};
use iges_base::EntryNo;
use iges_params::File;
use solid_data::Failing;

// Searches what a tuple owes; all of it lies on the path of its loop.
fn search_tuple(
    file: &File,
    name: Failing,
    path: Path,
    the_loop: EntryNo,
    item: usize,
    tuple: &LoopTuple<'_>,
) -> Result<(), Ended>
    ensures { Searched (on (Some path) (tuple_at file.now
        (pos the_loop.0) item tuple.now)) name result }
{
    if names_tuple(name, the_loop, item, tuple.list()) {
        return Err(Ended::Found(path));
    }
    if tuple.is_vertex() {
        return Ok(());
    }
    match names_used_edge(file, name, tuple.list(), tuple.index()) {
        Some(true) => Err(Ended::Found(path)),
        Some(false) => Ok(()),
        None => Err(Ended::Lost),
    }
}

/// Searches what the tuples of a loop owe.
pub fn search_tuples(
    file: &File,
    name: Failing,
    path: Path,
    the_loop: EntryNo,
    listed: &LoopRecord<'_>,
) -> Result<(), Ended>
    ensures { Searched (sited_after (tuples_sited file.now path
        (pos the_loop.0)) [] listed.now) name result }
{
    let mut item = 0;
    'tuples: for tuple in listed.tuples() {
        item += 1;
        search_tuple(file, name, path, the_loop, item, &tuple)?;
    }
    Ok(())
}
