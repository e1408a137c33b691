//! The numbers of a line.

ghost use Rattle.std.specs.Prelude.{◌≡◌, ℕ, List, [], ◌∷◌, ◌≤◌, ◌<◌, ◌↔◌, IsTrue, length, take, slice_index, MatchOption};
ghost use Rattle.std.specs.Int.{IsInRange};
ghost use Rattle.std.specs.Str.Parse.{AllDigits, digits_value};
ghost use Rattle.cert_text.specs.Text.{IsPlain, Stops, Begins, AreNumbers, IsSpaced};

/// The most digits that a number has.
const MOST: usize = 9;

/// The number of the digits at the start of a text, of whose first bytes so many are looked at, and how many they are.
#[inline(always)]
fn digits_among(text: &[u8], most: usize) -> (u32, usize)
    requires within { most ≤ length text.now }
    requires few { most ≤ 9 }
    ensures within { result.1 ≤ most }
    ensures digits { AllDigits 10 (take result.1 text.now) }
    ensures value { result.0 ≡ digits_value 10 (take result.1 text.now) }
    ensures ends { result.1 < most → ¬ IsInRange 48 57 (slice_index text.now result.1) }
{
    let mut value = 0;
    'digits: for i in 0..most {
        // Any byte that is no digit is above nine then.
        let digit = u32::from(text[i]).wrapping_sub(48);
        if digit > 9 {
            return (value, i);
        }
        value = value * 10 + digit;
    }
    (value, most)
}

/// The number of the digits at the start of a text, and how many they are: nine at most.
#[inline(always)]
fn leading_digits(text: &[u8]) -> (u32, usize)
    ensures within { result.1 ≤ length text.now }
    ensures few { result.1 ≤ 9 }
    ensures digits { AllDigits 10 (take result.1 text.now) }
    ensures value { result.0 ≡ digits_value 10 (take result.1 text.now) }
    ensures ends { result.1 < 9 → result.1 < length text.now
        → ¬ IsInRange 48 57 (slice_index text.now result.1) }
{
    if text.len() < MOST {
        return digits_among(text, text.len());
    }
    // Nearly every text is longer than a number, so that no byte has to be counted.
    digits_among(text, MOST)
}

/// Whether no digit and nothing else that may be in a word goes on with a number here.
fn stops(rest: &[u8]) -> bool
    ensures { IsTrue result ↔ Stops rest.now }
{
    match rest.first() {
        Some(byte) => *byte < b'0',
        None => true,
    }
}

/// Whether digits are there, and don't begin with a needless 0.
fn is_plain(digits: &[u8]) -> bool
    ensures { IsTrue result ↔ IsPlain digits.now }
{
    match digits.split_first() {
        Some((first, others)) => *first != b'0' || others.is_empty(),
        None => false,
    }
}

/// The number at the start of a text, after a space, and what follows it; None where none of one to nine digits stands
/// there.
#[inline(always)]
pub fn next_number(text: &[u8]) -> Option<(u32, &[u8])>
    ensures { MatchOption result ((n : ℕ) (rest : List ℕ) → ¬ Begins text.now n rest)
        (λ p. Begins text.now p.0 p.1.now) }
{
    let Some((space, after)) = text.split_first() else {
        return None;
    };
    if *space != b' ' {
        return None;
    }
    let (number, end) = leading_digits(after);
    let rest = &after[end..];
    if !stops(rest) {
        return None;
    }
    if !is_plain(&after[..end]) {
        return None;
    }
    Some((number, rest))
}

/// Whether the text is numbers alone, each of one to nine digits after a space; none at all will do.
pub fn are_numbers(text: &[u8]) -> bool
    ensures { IsTrue result ↔ IsSpaced text.now }
{
    let mut rest = text;
    'numbers: while !rest.is_empty() {
        let Some((_, after)) = next_number(rest) else {
            return false;
        };
        rest = after;
    }
    true
}

/// The number of a text that is one number of one to nine digits after a space.
pub fn one_number(text: &[u8]) -> Option<u32>
    ensures { MatchOption result ((a : ℕ) → ¬ AreNumbers text.now (a ∷ []))
        (λ a. AreNumbers text.now (a ∷ [])) }
{
    let Some((a, rest)) = next_number(text) else {
        return None;
    };
    if rest.is_empty() { Some(a) } else { None }
}

/// The numbers of a text that is two numbers of one to nine digits, each after a space.
pub fn two_numbers(text: &[u8]) -> Option<(u32, u32)>
    ensures { MatchOption result ((a b : ℕ) → ¬ AreNumbers text.now (a ∷ b ∷ []))
        (λ p. AreNumbers text.now (p.0 ∷ p.1 ∷ [])) }
{
    let Some((a, rest)) = next_number(text) else {
        return None;
    };
    let Some(b) = one_number(rest) else {
        return None;
    };
    Some((a, b))
}
