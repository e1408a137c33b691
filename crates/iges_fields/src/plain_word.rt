//! Items that a delimiter follows at once, without spaces between: most items of a file are these.

ghost use Rattle.iges_fields.specs.FreeText.{Spells};
ghost use Rattle.iges_base.specs.Word.{after_spaces};
ghost use Rattle.iges_base.specs.FrontDigits.{AreLeadingDigits};
ghost use Rattle.iges_fields.specs.Fronts.{IsPlainFront, value_of};
ghost use Rattle.std.specs.Char.{is_ascii_digit};
ghost use Rattle.std.specs.List.{list_all};
ghost use Rattle.std.specs.Prelude.{◌≡◌, ◌∷◌, ◌≤◌, IfSome, IsTrue, drop, length, take};
ghost use Rattle.std.specs.Str.Parse.{without_leading_sign};

use crate::delimiters::Delimiters;
use crate::kind::{WordKind, whole_kind};
use iges_base::{LeadingDigits, digits_len, digits_of, power_len, unsigned};

/// What a word without spaces is.
#[derive(Clone, Copy)]
pub enum PlainWord {
    /// No byte.
    Omitted,
    /// An integer of 64 signed bits.
    Whole(i64),
    /// A real.
    Real,
}

// The first so many bytes, which are digits behind their sign.
#[inline(always)]
fn whole_word(body: &[u8], len: usize, digits: LeadingDigits) -> Option<(PlainWord, usize)>
    requires within { len ≤ length body.now }
    requires digits { AreLeadingDigits (without_leading_sign (take len body.now)) digits }
    requires all { digits.len ≡ length (without_leading_sign (take len body.now)) }
    ensures { IfSome result (λ x. (x.1 ≡ len)
        × Spells (value_of x.0 (take len body.now)) (take len body.now)) }
{
    if len == 0 {
        return Some((PlainWord::Omitted, len));
    }
    if digits.len == 0 {
        return None;
    }
    let (word, _) = body.split_at(len);
    match whole_kind(word, digits.value) {
        WordKind::Whole(n) => Some((PlainWord::Whole(n), len)),
        _ => None,
    }
}

// How many digits are behind a point, which often has none.
#[inline(always)]
fn part_len(delims: &Delimiters, after: &[u8]) -> usize
    ensures within { result ≤ length after.now }
    ensures all { IsTrue (list_all is_ascii_digit (take result after.now)) }
{
    match after {
        [stop, ..] if delims.has(*stop) => 0,
        _ => digits_len(after),
    }
}

// The length of the real that goes on after its point, before which so many digits stand.
#[inline(always)]
fn real_len(delims: &Delimiters, body: &[u8], whole: usize, after: &[u8]) -> Option<usize>
    requires digits { IsTrue (list_all is_ascii_digit (take whole (without_leading_sign body.now))) }
    requires behind { drop whole (without_leading_sign body.now) ≡ 46 ∷ after.now }
    ensures { IfSome result (IsPlainFront delims.now body.now PlainWord.Real) }
{
    let part = part_len(delims, after);
    if whole == 0 && part == 0 {
        return None;
    }
    let (_, power) = after.split_at(part);
    let (_, rest) = power.split_at(power_len(power));
    let [stop, ..] = rest else {
        return None;
    };
    if !delims.has(*stop) {
        return None;
    }
    Some(body.len() - rest.len())
}

/// The length of the real at the front of the text that begins with these digits. None says nothing of the text.
#[inline(always)]
pub fn unsigned_real(delims: &Delimiters, text: &[u8], digits: LeadingDigits) -> Option<usize>
    requires { AreLeadingDigits text.now digits }
    ensures { IfSome result (λ len. IsPlainFront delims.now text.now PlainWord.Real len
        × (text.now ≡ after_spaces text.now)) }
{
    if digits.len == 0 {
        return None;
    }
    let (_, behind) = text.split_at(digits.len);
    let [stop, after @ ..] = behind else {
        return None;
    };
    if *stop != b'.' {
        return None;
    }
    real_len(delims, text, digits.len, after)
}

/// The word at the front of the body and its length, where a delimiter comes behind it. None says nothing of the body.
#[inline(always)]
pub fn plain_word(delims: &Delimiters, body: &[u8]) -> Option<(PlainWord, usize)>
    ensures { IfSome result (λ x. IsPlainFront delims.now body.now x.0 x.1) }
{
    let unsigned = unsigned(body);
    let digits = digits_of(unsigned);
    let (_, behind) = unsigned.split_at(digits.len);
    let [stop, after @ ..] = behind else {
        return None;
    };
    if delims.has(*stop) {
        return whole_word(body, body.len() - behind.len(), digits);
    }
    if *stop == b'.' {
        let len = real_len(delims, body, digits.len, after)?;
        return Some((PlainWord::Real, len));
    }
    None
}
