//! The parts of a number's word.

ghost use Rattle.std.specs.Prelude.{◌≡◌, length, drop, take_while};
ghost use Rattle.std.specs.Char.{is_ascii_digit};
ghost use Rattle.std.specs.List.{prefix_len};
ghost use Rattle.equal_values.specs.Spelled.{after_point, exponent, fraction, whole};

use iges_base::unsigned;

fn digits_len(text: &[u8]) -> usize
    ensures { result ≡ prefix_len is_ascii_digit text.now }
{
    let mut len = 0;
    'digits: while len < text.len() && text[len].is_ascii_digit() {
        len += 1;
    }
    len
}

/// The digits at the front of a text, and what is behind them.
pub fn digits_and_rest(text: &[u8]) -> (&[u8], &[u8])
    ensures digits { result.0.now ≡ take_while is_ascii_digit text.now }
    ensures rest { result.1.now ≡ drop (length (take_while is_ascii_digit text.now)) text.now }
{
    text.split_at(digits_len(text))
}

fn behind_point(text: &[u8]) -> &[u8]
    ensures { result.now ≡ after_point text.now }
{
    match text {
        [b'.', rest @ ..] => rest,
        rest => rest,
    }
}

fn behind_letter(text: &[u8]) -> &[u8]
    ensures { result.now ≡ drop 1 text.now }
{
    match text {
        [_, rest @ ..] => rest,
        rest => rest,
    }
}

/// The digits before the point and those behind it, and the exponent.
pub fn parts_of(word: &[u8]) -> (&[u8], &[u8], &[u8])
    ensures whole { result.0.now ≡ whole word.now }
    ensures fraction { result.1.now ≡ fraction word.now }
    ensures exponent { result.2.now ≡ exponent word.now }
{
    let (whole, rest) = digits_and_rest(unsigned(word));
    let (fraction, power) = digits_and_rest(behind_point(rest));
    (whole, fraction, behind_letter(power))
}
