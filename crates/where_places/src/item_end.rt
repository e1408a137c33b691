//! The end of an item of free text whose value is known.

ghost use Rattle.iges_fields.specs.Delims.{are_permitted};
ghost use Rattle.iges_fields.specs.FreeText.{is_delimiter_of};
ghost use Rattle.std.specs.List.{prefix_len};
ghost use Rattle.std.specs.Prelude.{◌≡◌, ◌==◌, IsTrue, drop, length, not};
ghost use Rattle.where_places.specs.ItemEnds.{behind_counted, behind_item, behind_items, from_delimiter, from_h};

use iges_fields::{Delimiters, Value};

fn len_before_delimiter(delims: &Delimiters, text: &[u8]) -> usize
    ensures len { result ≡ prefix_len (λ b. not (is_delimiter_of delims.now b)) text.now }
    ensures permitted { IsTrue (are_permitted delims.now) }
{
    let param = delims.param();
    let end = delims.end();
    let mut len = 0;
    'bytes: while len < text.len() && text[len] != param && text[len] != end {
        len += 1;
    }
    len
}

fn len_before_h(text: &[u8]) -> usize
    ensures { result ≡ prefix_len (λ b. not (b == 72)) text.now }
{
    let mut len = 0;
    'bytes: while len < text.len() && text[len] != b'H' {
        len += 1;
    }
    len
}

/// The text without so many bytes at its front.
pub fn behind(text: &[u8], count: usize) -> &[u8]
    ensures { result.now ≡ drop count text.now }
{
    &text[count.min(text.len())..]
}

/// The text from its first delimiter on.
#[tactic(auto, unfolding(crate::specs::ItemEnds::from_delimiter))]
pub fn from_delimiter<'t>(delims: &Delimiters, text: &'t [u8]) -> &'t [u8]
    ensures is { result.now ≡ from_delimiter delims.now text.now }
    ensures permitted { IsTrue (are_permitted delims.now) }
{
    behind(text, len_before_delimiter(delims, text))
}

// The text from its first H on.
#[tactic(auto, unfolding(crate::specs::ItemEnds::from_h))]
fn from_h(text: &[u8]) -> &[u8]
    ensures { result.now ≡ from_h text.now }
{
    behind(text, len_before_h(text))
}

/// What comes behind the first H and so many bytes.
pub fn behind_counted(text: &[u8], count: usize) -> &[u8]
    ensures { result.now ≡ behind_counted count text.now }
{
    behind(behind(from_h(text), 1), count)
}

/// The text from the delimiter on that ends the item at its front, which has this value (IGES 5.3, 2.2.3).
pub fn behind_item<'t>(delims: &Delimiters, value: &Value, text: &'t [u8]) -> &'t [u8]
    ensures { result.now ≡ behind_item delims.now value.now text.now }
{
    match value {
        Value::Text(content) => {
            from_delimiter(delims, behind_counted(text, content.as_slice().len()))
        }
        Value::Default | Value::Int(_) | Value::Real(_) => from_delimiter(delims, text),
    }
}

/// What comes behind the items of these values, which are at the front of the text, and their delimiters.
pub fn behind_items<'t>(delims: &Delimiters, values: &[Value], text: &'t [u8]) -> &'t [u8]
    ensures { result.now ≡ behind_items delims.now values.now text.now }
{
    let mut rest = text;
    'values: for value in values {
        rest = behind(behind_item(delims, value, rest), 1);
    }
    rest
}
