//! The changed file.

ghost use Rattle.changed_file.specs.Changed.{changed, without_gone};
ghost use Rattle.std.specs.Prelude.{◌≡◌, IfOk};

use crate::changing::drafted;
use crate::draft::Draft;
use crate::emptying::emptied;
use crate::rewriting::rewritten;
use changed_records::ChangeFault;
use iges_params::File;
use shell_change::Change;
use solid_data::Solid;
use std::alloc::Global;

fn without_gone(alloc: Global, file: &File, mut draft: Draft) -> Result<File, ChangeFault>
    ensures { IfOk result (λ new. new ≡ without_gone file.now draft) }
{
    let new = rewritten(alloc, file, &mut draft.slots, &mut draft.added)?;
    let without_faces = emptied(alloc, new, draft.faces.as_slice())?;
    emptied(alloc, without_faces, draft.loops.as_slice())
}

/// The file with one change for each of these shells of a solid of it, in their order. Of the rims of a change nothing is
/// made. It is refused where a change isn't one of this solid, or where the file would have too many entries or values.
#[tactic(auto, unfolding(crate::specs::Changed::changed))]
pub fn changed(
    alloc: Global,
    file: &File,
    solid: &Solid,
    changes: &[Change],
) -> Result<File, ChangeFault>
    ensures { IfOk result (λ new. new ≡ changed file.now solid.now changes.now) }
{
    let draft = drafted(alloc, file, solid, changes)?;
    without_gone(alloc, file, draft)
}
