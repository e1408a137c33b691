//! Zeros at the two ends of digits.

ghost use Rattle.std.specs.Prelude.{◌≡◌, ◌++◌};
ghost use Rattle.equal_values.specs.Canonical.{after_zeros, before_zeros};

fn without_front_zeros(text: &[u8]) -> &[u8]
    ensures { result.now ≡ after_zeros text.now }
{
    let mut at = 0;
    'zeros: while at < text.len() && text[at] == b'0' {
        at += 1;
    }
    &text[at..]
}

fn without_end_zeros(text: &[u8]) -> &[u8]
    ensures { result.now ≡ before_zeros text.now }
{
    let mut end = text.len();
    'zeros: while end > 0 && text[end - 1] == b'0' {
        end -= 1;
    }
    &text[..end]
}

/// Digits in two pieces without the zeros at their front.
pub fn behind_zeros<'t>(whole: &'t [u8], fraction: &'t [u8]) -> (&'t [u8], &'t [u8])
    ensures { result.0.now ++ result.1.now ≡ after_zeros (whole.now ++ fraction.now) }
{
    let front = without_front_zeros(whole);
    if front.is_empty() {
        return (front, without_front_zeros(fraction));
    }
    (front, fraction)
}

/// Digits in two pieces without the zeros at their end.
pub fn up_to_zeros<'t>(front: &'t [u8], back: &'t [u8]) -> (&'t [u8], &'t [u8])
    ensures { result.0.now ++ result.1.now ≡ before_zeros (front.now ++ back.now) }
{
    let end = without_end_zeros(back);
    if end.is_empty() {
        return (without_end_zeros(front), end);
    }
    (front, end)
}
