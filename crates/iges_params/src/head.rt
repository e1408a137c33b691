//! The start of the global section, where it names its delimiters.

ghost use Rattle.iges_params.specs.Global.{delimiter_at, behind_byte, head_with, if_permitted, head};
ghost use Rattle.iges_params.specs.Heads.{IsHead};
ghost use Rattle.std.specs.Prelude.{◌≡◌, Option, Some, List, ℕ, option_copied};

use iges_base::without_front_spaces;
use iges_fields::Delimiters;

/// The delimiters that a global's text names, and the text of its values where values follow.
#[derive(Clone, Copy)]
pub struct Head<'t> {
    /// The two delimiters (IGES 5.3, 2.2.4.3.1 and 2.2.4.3.2).
    pub delims: Delimiters,
    /// The text after them; None where the record delimiter follows them at once.
    pub values: Option<&'t [u8]>,
}

// After spaces, `1H` and a byte name the byte as a delimiter; else the default is meant. With it, what follows.
fn delimiter_at(default: u8, text: &[u8]) -> (u8, &[u8])
    ensures byte { result.0 ≡ (delimiter_at default text.now).0 }
    ensures rest { result.1.now ≡ (delimiter_at default text.now).1 }
{
    let front = without_front_spaces(text);
    match front {
        [b'1', b'H', byte, behind @ ..] => (*byte, behind),
        _ => (default, front),
    }
}

// What comes after spaces and the byte, if it is there.
fn behind_byte(byte: u8, text: &[u8]) -> Option<&[u8]>
    ensures { option_copied result ≡ behind_byte byte text.now }
{
    match without_front_spaces(text) {
        [first, behind @ ..] if *first == byte => Some(behind),
        _ => None,
    }
}

// The head with these delimiters, where they are permitted.
fn permitted(param: u8, end: u8, values: Option<&[u8]>) -> Option<Head<'_>>
    ensures { IsHead result (if_permitted (Some
        (record { delims = record { param = param; end = end }; values = option_copied values.entry }))) }
{
    let delims = Delimiters::new(param, end)?;
    Some(Head { delims, values })
}

// The head of a text after the parameter delimiter.
fn head_with(param: u8, text: &[u8]) -> Option<Head<'_>>
    ensures { IsHead result (if_permitted (head_with param text.now)) }
{
    let (end, rest) = delimiter_at(b';', text);
    if let Some(values) = behind_byte(param, rest) {
        return permitted(param, end, Some(values));
    }
    behind_byte(end, rest)?;
    permitted(param, end, None)
}

/// How a global's text begins, where it names two delimiters that are permitted.
pub fn head_of(text: &[u8]) -> Option<Head<'_>>
    ensures { IsHead result (head text.now) }
{
    let (param, rest) = delimiter_at(b',', text);
    if let Some(behind) = behind_byte(param, rest) {
        return head_with(param, behind);
    }
    behind_byte(b';', rest)?;
    permitted(param, b';', None)
}
