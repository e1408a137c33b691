//! Values as they are spelled in a file.

ghost use Rattle.iges_fields.specs.Spelled.{spelling};
ghost use Rattle.std.specs.Prelude.{◌≡◌, ◌++◌, OnOk, OnErr, length, take};

use crate::value::Value;
use iges_base::{NoMemory, Out, write_number};
use itoa::Buffer;

// Appends the spelling, or some bytes at its front.
fn append(out: &mut Out, value: &Value) -> Result<(), NoMemory>
    ensures ok { OnOk result (out.new ≡ out.old ++ spelling value.now) }
    ensures err { OnErr result (take (length out.old) out.new ≡ out.old) }
{
    match value {
        Value::Default => Ok(()),
        Value::Int(n) => out.put(Buffer::new().format(*n).as_bytes()),
        Value::Real(word) => out.put(word.as_slice()),
        Value::Text(text) => {
            let bytes = text.as_slice();
            write_number(out, bytes.len() as u64)?;
            out.put(b"H")?;
            out.put(bytes)
        }
    }
}

/// Appends the spelling of a value: nothing for one that is left out, the shortest digits of an integer with a
/// minus where it is negative, a real's word as it was read, and of a text its length, `H` and its bytes
/// (IGES 5.3, 2.2.2; that an integer has no plus and no zero at its front is our own choice). Where memory runs
/// out, `out` is as it was.
pub fn write_value(out: &mut Out, value: &Value) -> Result<(), NoMemory>
    ensures ok { OnOk result (out.new ≡ out.old ++ spelling value.now) }
    ensures err { OnErr result (out.new ≡ out.old) }
{
    let len = out.bytes().len();
    match append(out, value) {
        Ok(()) => Ok(()),
        Err(fault) => {
            out.cut(len);
            Err(fault)
        }
    }
}
