//! The digits at the front of a text.

ghost use Rattle.iges_base.specs.FrontDigits.{AreLeadingDigits, IsDigitsSoFar};
ghost use Rattle.std.specs.Char.{is_ascii_digit};
ghost use Rattle.std.specs.List.{list_all};
ghost use Rattle.std.specs.Prelude.{◌≡◌, ◌+◌, ◌<◌, ◌≤◌, IfSome, IsTrue, length, take};

// So many digits write a number that 64 signed bits hold.
const MOST: usize = 18;

/// Digits at the front of a text: how many, and the number that they write.
#[derive(Clone, Copy)]
pub struct LeadingDigits {
    /// How many bytes these are, from 0 to 18.
    pub len: usize,
    /// The number; 0 where there is no digit.
    pub value: u64,
}

const NO_DIGITS: LeadingDigits = LeadingDigits { len: 0, value: 0 };

// The digits with the next one, where another is behind them.
#[inline(always)]
fn with_next(text: &[u8], digits: LeadingDigits) -> Option<LeadingDigits>
    requires within { digits.len < length text.now }
    requires few { digits.len < 18 }
    requires digits { IsDigitsSoFar text.now digits.len digits.value }
    ensures { IfSome result (λ more. (more.len ≡ digits.len + 1) × IsDigitsSoFar text.now more.len more.value) }
{
    let digit = u64::from(text[digits.len]).wrapping_sub(48);
    if digit > 9 {
        return None;
    }
    Some(LeadingDigits {
        len: digits.len + 1,
        value: digits.value * 10 + digit,
    })
}

// The digits with all that are behind them, up to eighteen.
#[inline(always)]
#[tactic(auto, using(crate::proofs::FrontDigits::so_far_are))]
fn with_others(text: &[u8], digits: LeadingDigits) -> LeadingDigits
    requires { IsDigitsSoFar text.now digits.len digits.value }
    ensures { AreLeadingDigits text.now result }
{
    let most = text.len().min(MOST);
    let mut so_far = digits;
    'digits: while so_far.len < most {
        let Some(more) = with_next(text, so_far) else {
            return so_far;
        };
        so_far = more;
    }
    so_far
}

/// The digits at the front of the text, no more than eighteen.
#[inline(always)]
pub fn digits_of(text: &[u8]) -> LeadingDigits
    ensures { AreLeadingDigits text.now result }
{
    if text.len() < 6 {
        return with_others(text, NO_DIGITS);
    }
    // Most numbers have few digits.
    let Some(one) = with_next(text, NO_DIGITS) else {
        return NO_DIGITS;
    };
    let Some(two) = with_next(text, one) else {
        return one;
    };
    let Some(three) = with_next(text, two) else {
        return two;
    };
    let Some(four) = with_next(text, three) else {
        return three;
    };
    let Some(five) = with_next(text, four) else {
        return four;
    };
    let Some(six) = with_next(text, five) else {
        return five;
    };
    with_others(text, six)
}

// Whether eight bytes are digits, each of which is looked at: eight at once where the processor can.
#[inline(always)]
fn are_eight_digits(text: &[u8]) -> bool
    requires { length text.now ≡ 8 }
    ensures { IsTrue result → IsTrue (list_all is_ascii_digit text.now) }
{
    let [a, b, c, d, e, f, g, h] = text else {
        return false;
    };
    a.is_ascii_digit()
        & b.is_ascii_digit()
        & c.is_ascii_digit()
        & d.is_ascii_digit()
        & e.is_ascii_digit()
        & f.is_ascii_digit()
        & g.is_ascii_digit()
        & h.is_ascii_digit()
}

// Nine, where the first nine bytes are digits, else 0: one and then eight, since nine are the digits behind most points.
#[inline(always)]
fn first_nine(text: &[u8]) -> usize
    ensures within { result ≤ length text.now }
    ensures all { IsTrue (list_all is_ascii_digit (take result text.now)) }
{
    let [first, rest @ ..] = text else {
        return 0;
    };
    if !first.is_ascii_digit() || rest.len() < 8 {
        return 0;
    }
    let (eight, _) = rest.split_at(8);
    if are_eight_digits(eight) { 9 } else { 0 }
}

/// How many bytes at the front of the text are digits, as far as these are counted.
#[inline(always)]
pub fn digits_len(text: &[u8]) -> usize
    ensures within { result ≤ length text.now }
    ensures all { IsTrue (list_all is_ascii_digit (take result text.now)) }
{
    let mut len = first_nine(text);
    'digits: while len < text.len() && text[len].is_ascii_digit() {
        len += 1;
    }
    len
}
