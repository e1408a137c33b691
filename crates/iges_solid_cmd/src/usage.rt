//! The usage line, formed from the listed forms.

ghost use Rattle.iges_solid_cmd.specs.Forms.{form_text, join_with, slot_text, usage_line};
ghost use Rattle.iges_solid_cmd.specs.FormTable.{form_meant, slot_meant};
ghost use Rattle.std.specs.Prelude.{◌≡◌, ◌++◌, IfOk, List, OnOk, map, ℕ};

use crate::form::{Form, listed};
use crate::form_slot::FormSlot;
use iges_base::{Bytes, NoMemory, Out};
use std::alloc::Global;

// What has a text in the usage line.
trait Shown {
    ghost text: { Self → List ℕ };

    fn put(&self, out: &mut Out) -> Result<(), NoMemory>
        ensures { OnOk result (out.new ≡ out.old ++ text self.now) };
}

impl Shown for FormSlot {
    ghost text = { λ slot. slot_text (slot_meant slot) };

    fn put(&self, out: &mut Out) -> Result<(), NoMemory> {
        match self {
            FormSlot::Word(text) => out.put(text.as_bytes()),
            FormSlot::File => out.put(b"FILE"),
            FormSlot::Certificate => out.put(b"CERT"),
            FormSlot::Number { .. } => out.put(b"N"),
        }
    }
}

impl Shown for Form {
    ghost text = { λ form. form_text (form_meant form) };

    fn put(&self, out: &mut Out) -> Result<(), NoMemory> {
        put_joined(out, self.slots, b" ")
    }
}

// Appends the texts of these, with this one between each two.
fn put_joined<T: Shown>(out: &mut Out, shown: &[T], between: &[u8]) -> Result<(), NoMemory>
    ensures { OnOk result (out.new ≡ out.old ++ join_with between.now (map T.text shown.now)) }
{
    let Some((first, others)) = shown.split_first() else {
        return Ok(());
    };
    first.put(out)?;
    'others: for next in others {
        out.put(between)?;
        next.put(out)?;
    }
    Ok(())
}

/// The usage line: the listed forms in their order, with a line feed at the end. It errs only where memory runs out.
pub fn usage_text(alloc: Global) -> Result<Bytes, NoMemory>
    ensures { IfOk result (λ text. text ≡ usage_line) }
{
    let mut out = Out::new(alloc);
    out.put(b"usage: igesolid ")?;
    put_joined(&mut out, listed(), b" | ")?;
    out.put(b"\n")?;
    Ok(out.into_bytes())
}
