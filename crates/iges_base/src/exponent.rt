//! The exponent of a real that is written without spaces.

ghost use Rattle.iges_base.specs.RealParts.{is_power};
ghost use Rattle.iges_base.specs.Reals.{is_exponent_letter};
ghost use Rattle.std.specs.Prelude.{◌≡◌, ◌≤◌, IsTrue, length, take};

use crate::digits::unsigned;
use crate::leading_digits::digits_len;

#[inline(always)]
fn is_letter(b: u8) -> bool
    ensures { result ≡ is_exponent_letter b }
{
    matches!(b, b'E' | b'D' | b'e' | b'd')
}

/// How long the exponent at the front of the text is; 0 where there is none.
#[inline(always)]
pub fn power_len(text: &[u8]) -> usize
    ensures within { result ≤ length text.now }
    ensures power { IsTrue (is_power (take result text.now)) }
{
    let [letter, power @ ..] = text else {
        return 0;
    };
    if !is_letter(*letter) {
        return 0;
    }
    let digits = unsigned(power);
    let len = digits_len(digits);
    if len == 0 {
        return 0;
    }
    text.len() - digits.len() + len
}
