//! The label of an entity.

ghost use Rattle.std.specs.Prelude.{◌≡◌, ◌++◌, OnOk};
ghost use Rattle.where_entities.specs.Facts.{label_fact};

use iges_base::{NoMemory, Out, trimmed};
use where_text::put_masked;

/// Appends the fact of a label, which is eight bytes, without the spaces at its ends; nothing where it is of spaces alone
/// (IGES 5.3, 2.2.4.4.18).
#[tactic(auto, unfolding(crate::specs::Facts::label_fact))]
pub fn put_label(out: &mut Out, label: &[u8]) -> Result<(), NoMemory>
    ensures { OnOk result (out.new ≡ out.old ++ label_fact label.now) }
{
    let word = trimmed(label);
    if let [] = word {
        return Ok(());
    }
    out.put(b"  label ")?;
    put_masked(out, word)?;
    out.put(b"\n")
}
