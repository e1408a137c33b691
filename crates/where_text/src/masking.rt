//! Bytes of a file as they are shown.

ghost use Rattle.std.specs.Prelude.{◌≡◌, ◌++◌, OnOk};
ghost use Rattle.where_text.specs.Spelled.{masked, masked_byte};

use iges_base::{NoMemory, Out};

// A control character is shown as a question mark.
fn masked_byte(b: u8) -> u8
    ensures { result ≡ masked_byte b }
{
    if b < 32 || b == 127 { b'?' } else { b }
}

/// Appends the bytes, each below 32 and each 127 as `?`, so that no line of the text is broken by them.
pub fn put_masked(out: &mut Out, bytes: &[u8]) -> Result<(), NoMemory>
    ensures text { OnOk result (out.new ≡ out.old ++ masked bytes.now) }
{
    'bytes: for byte in bytes {
        out.put(&[masked_byte(*byte)])?;
    }
    Ok(())
}
