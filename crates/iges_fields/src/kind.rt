//! Which words are integers, and which are reals.

ghost use Rattle.iges_base.specs.RealParts.{IsMantissa, up_to_past};
ghost use Rattle.iges_fields.specs.Gives.{IsKindOf, IsSigned};
ghost use Rattle.iges_base.specs.Word.{is_integer};
ghost use Rattle.iges_base.specs.Reals.{is_exponent_letter};
ghost use Rattle.std.specs.Prelude.{◌≡◌, ◌&&◌, IsTrue, length, pos, neg_ℤ};
ghost use Rattle.std.specs.Str.Parse.{digits_value, without_leading_sign};

use iges_base::{Mantissa, is_digits, mantissa_of, unsigned};

/// What a word of free text is (IGES 5.3, 2.2.2.1 and 2.2.2.2).
#[derive(Clone, Copy)]
pub enum WordKind {
    /// An integer of 64 signed bits.
    Whole(i64),
    /// An integer that 64 signed bits don't hold.
    TooLarge,
    /// A real, which is kept as it is spelled.
    Real,
    /// Neither an integer nor a real.
    Neither,
}

fn positive(value: u64) -> WordKind
    ensures { IsSigned (pos value) result }
{
    if value <= 9_223_372_036_854_775_807 {
        WordKind::Whole(value as i64)
    } else {
        WordKind::TooLarge
    }
}

fn negative(value: u64) -> WordKind
    ensures { IsSigned (neg_ℤ (pos value)) result }
{
    match value {
        0 => WordKind::Whole(0),
        1..=9_223_372_036_854_775_808 => WordKind::Whole(-1 - (value - 1) as i64),
        _ => WordKind::TooLarge,
    }
}

/// The kind of an integer's word, whose digits write this value, or one past 64 bits.
pub fn whole_kind(word: &[u8], value: u64) -> WordKind
    requires word { IsTrue (is_integer word.now) }
    requires value { value ≡ up_to_past (digits_value 10 (without_leading_sign word.now)) }
    ensures { IsKindOf word.now result }
{
    match word {
        [b'-', ..] => negative(value),
        _ => positive(value),
    }
}

/// The kind of a word that has only digits and points after its sign, where these are the mantissa.
pub fn plain_kind(word: &[u8], mantissa: &Mantissa) -> WordKind
    requires mantissa { IsMantissa (without_leading_sign word.now) mantissa.now }
    requires all { mantissa.now.len ≡ length (without_leading_sign word.now) }
    ensures { IsKindOf word.now result }
{
    if !mantissa.is_valid() {
        return WordKind::Neither;
    }
    if mantissa.points == 0 {
        return whole_kind(word, mantissa.value);
    }
    WordKind::Real
}

fn is_exponent(letter: u8, power: &[u8]) -> bool
    ensures { result ≡ (is_exponent_letter letter && is_integer power.now) }
{
    matches!(letter, b'E' | b'D' | b'e' | b'd') && is_digits(unsigned(power))
}

/// Whether a word is an integer within 64 signed bits, one outside them, a real, or neither.
pub fn kind_of(word: &[u8]) -> WordKind
    ensures { IsKindOf word.now result }
{
    let unsigned = unsigned(word);
    let mantissa = mantissa_of(unsigned);
    let (_, exponent) = unsigned.split_at(mantissa.len);
    match exponent {
        [] => plain_kind(word, &mantissa),
        [letter, power @ ..] => {
            if mantissa.is_valid() && is_exponent(*letter, power) {
                WordKind::Real
            } else {
                WordKind::Neither
            }
        }
    }
}
