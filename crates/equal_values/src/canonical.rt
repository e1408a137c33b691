//! The canonical text of a value.

ghost use Rattle.std.specs.Prelude.{◌≡◌, ◌∷◌, ◌++◌, OnOk};
ghost use Rattle.std.specs.Str.Parse.{starts_with_minus};
ghost use Rattle.equal_values.specs.Canonical.{canonical, number_text, word_text};

use crate::ends::{behind_zeros, up_to_zeros};
use crate::exponent::{FAR, power_of, put_behind, put_exponent, raised_power};
use crate::word::parts_of;
use iges_base::NoMemory;
use iges_fields::Value;
use itoa::Buffer;

// The digits that count are in two pieces.
fn put_digits(
    text: &mut Vec<u8>,
    negative: bool,
    front: &[u8],
    back: &[u8],
    scale: u64,
) -> Result<(), NoMemory>
    ensures { OnOk result (text.new.items ≡ text.old.items ++ number_text negative (front.now ++ back.now) scale) }
{
    if front.is_empty() && back.is_empty() {
        text.push(b'0')?;
        return Ok(());
    }
    put_behind(text, if negative { b'-' } else { b'+' }, front)?;
    text.extend_from_slice(back)?;
    put_exponent(text, scale)
}

fn is_negative(word: &[u8]) -> bool
    ensures { result ≡ starts_with_minus word.now }
{
    matches!(word, [b'-', ..])
}

// Appends the text of a number's word.
fn put_word(text: &mut Vec<u8>, word: &[u8]) -> Result<(), NoMemory>
    ensures { OnOk result (text.new.items ≡ text.old.items ++ word_text word.now) }
{
    let (whole, fraction, exponent) = parts_of(word);
    let power = power_of(exponent);
    if power.saturating_add(word.len() as u64) >= FAR {
        return put_behind(text, b'!', word);
    }
    let (front, back) = behind_zeros(whole, fraction);
    let raised = raised_power(exponent, power);
    let scale = raised + (front.len() + back.len()) as u64 - fraction.len() as u64;
    let (front, back) = up_to_zeros(front, back);
    put_digits(text, is_negative(word), front, back, scale)
}

/// Appends the canonical text of a value, which equal values share and no others: of a number its sign, the digits that
/// count and the exponent.
pub fn put_canonical(text: &mut Vec<u8>, value: &Value) -> Result<(), NoMemory>
    ensures { OnOk result (text.new.items ≡ text.old.items ++ canonical value.now) }
{
    match value {
        Value::Default => Ok(()),
        Value::Int(n) => put_word(text, Buffer::new().format(*n).as_bytes()),
        Value::Real(word) => put_word(text, word.as_slice()),
        Value::Text(bytes) => put_behind(text, b'H', bytes.as_slice()),
    }
}
