//! The key of a value.

ghost use Rattle.std.specs.Prelude.{◌≡◌, ◌++◌, OnOk};
ghost use Rattle.equal_values.specs.Keys.{key_of, marked};

use crate::canonical::put_canonical;
use iges_base::NoMemory;
use iges_fields::Value;
use std::alloc::Global;

/// Appends a text to a key, so that more can stand behind it.
pub fn put_text(text: &mut Vec<u8>, piece: &[u8]) -> Result<(), NoMemory>
    ensures { OnOk result (text.new.items ≡ text.old.items ++ marked piece.now) }
{
    'bytes: for byte in piece {
        text.push(1)?;
        text.push(*byte)?;
    }
    text.push(0)?;
    Ok(())
}

/// Appends the key of a value, which equal values share and no others. Keys can stand one behind the other: two lists of
/// values are equal at each place exactly if their keys are the same bytes.
pub fn put_key(alloc: Global, text: &mut Vec<u8>, value: &Value) -> Result<(), NoMemory>
    ensures { OnOk result (text.new.items ≡ text.old.items ++ key_of value.now) }
{
    let mut canonical = Vec::new(alloc);
    put_canonical(&mut canonical, value)?;
    put_text(text, canonical.as_slice())
}
