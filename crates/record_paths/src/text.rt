//! How a path is written.

ghost use Rattle.record_paths.specs.Texts.{path_named, path_text, step_line, step_named};
ghost use Rattle.std.specs.Prelude.{◌≡◌, ◌++◌, OnOk};

use crate::path::{Path, Step};
use iges_base::{EntryNo, NoMemory, Out};
use where_text::{EntryNumbers, put_number, put_word};

// Appends the line of a step, where the path goes so far.
#[tactic(auto, unfolding(crate::specs::Texts::step_line))]
fn put_step(
    out: &mut Out,
    named: &mut EntryNumbers,
    word: &str,
    step: Option<Step>,
) -> Result<(), NoMemory>
    ensures text { OnOk result (out.new ≡ out.old ++ step_line word.now step) }
    ensures named { OnOk result (named.new ≡ named.old ++ step_named step) }
{
    let Some(step) = step else {
        return Ok(());
    };
    out.put(b"  in")?;
    put_word(out, word)?;
    put_number(out, u64::from(step.entity.0))?;
    put_word(out, "item")?;
    put_number(out, step.item as u64)?;
    out.put(b"\n")?;
    named.push(step.entity)
}

/// Appends the facts that describe a path: a line for the solid, and one for each step, with the number of its entity and
/// the item that names it. The numbers join those that facts name. Where memory runs out, both may have grown.
#[tactic(auto, unfolding(crate::specs::Texts::path_text, crate::specs::Texts::path_named, crate::specs::Texts::solid_line))]
pub fn put_path(
    out: &mut Out,
    named: &mut EntryNumbers,
    no: EntryNo,
    path: &Path,
) -> Result<(), NoMemory>
    ensures text { OnOk result (out.new ≡ out.old ++ path_text no path.now) }
    ensures named { OnOk result (named.new ≡ named.old ++ path_named no path.now) }
{
    out.put(b"  in solid")?;
    put_number(out, u64::from(no.0))?;
    out.put(b"\n")?;
    named.push(no)?;
    put_step(out, named, "shell", path.shell)?;
    put_step(out, named, "face", path.face)?;
    put_step(out, named, "loop", path.the_loop)
}
