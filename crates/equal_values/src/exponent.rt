//! The exponent of a number.

ghost use Rattle.std.specs.Prelude.{◌≡◌, ◌∷◌, ◌+◌, ◌-◌, ◌*◌, ◌^◌, ◌<◌, ◌≤◌, ◌++◌, OnOk, length, min, take_while, if◌then◌else◌};
ghost use Rattle.std.specs.Char.{is_ascii_digit};
ghost use Rattle.std.specs.Str.Parse.{digits_value, starts_with_minus, without_leading_sign};
ghost use Rattle.equal_values.specs.Canonical.{exponent_text};

use iges_base::{NoMemory, unsigned};
use itoa::Buffer;

/// The least size of an exponent that isn't computed with.
pub const FAR: u64 = 4_611_686_018_427_387_904;

fn with_digit(value: u64, digit: u8) -> u64
    requires value { value ≤ FAR }
    requires digit { digit < 10 }
    ensures { result ≡ min (value * 10 + digit) (2 ^ 62) }
{
    if value > FAR / 10 {
        return FAR;
    }
    FAR.min(value * 10 + u64::from(digit))
}

/// How large an exponent is, or 2 ^ 62 if it's larger.
pub fn power_of(exponent: &[u8]) -> u64
    ensures { result ≡ min (digits_value 10 (take_while is_ascii_digit (without_leading_sign exponent.now))) (2 ^ 62) }
{
    let digits = unsigned(exponent);
    let mut len = 0;
    let mut value = 0;
    'digits: while len < digits.len() && digits[len].is_ascii_digit() {
        value = with_digit(value, digits[len] - b'0');
        len += 1;
    }
    value
}

/// An exponent of this size and 2 ^ 62.
pub fn raised_power(exponent: &[u8], power: u64) -> u64
    requires { power ≤ FAR }
    ensures { result ≡ if starts_with_minus exponent.now then 2 ^ 62 - power else 2 ^ 62 + power }
{
    match exponent {
        [b'-', ..] => FAR - power,
        _ => FAR + power,
    }
}

/// Appends a byte and a piece.
pub fn put_behind(text: &mut Vec<u8>, byte: u8, piece: &[u8]) -> Result<(), NoMemory>
    ensures { OnOk result (text.new.items ≡ text.old.items ++ byte ∷ piece.now) }
{
    text.push(byte)?;
    text.extend_from_slice(piece)?;
    Ok(())
}

/// Appends an exponent, of which 2 ^ 62 more is given.
pub fn put_exponent(text: &mut Vec<u8>, scale: u64) -> Result<(), NoMemory>
    ensures { OnOk result (text.new.items ≡ text.old.items ++ exponent_text scale) }
{
    let mut buffer = Buffer::new();
    if scale >= FAR {
        put_behind(text, b'E', buffer.format(scale - FAR).as_bytes())
    } else {
        put_behind(text, b'e', buffer.format(FAR - scale).as_bytes())
    }
}
