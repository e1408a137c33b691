//! Items that are digits alone, without spaces: most items of a file are these.

ghost use Rattle.iges_fields.specs.declared.value.Value.{Value};
ghost use Rattle.iges_fields.specs.Delims.{are_permitted};
ghost use Rattle.iges_base.specs.FrontDigits.{AreLeadingDigits};
ghost use Rattle.iges_fields.specs.Reading.{read_item};
ghost use Rattle.std.specs.Prelude.{◌≡◌, Ok, IfSome, IsTrue};

use crate::delimiters::Delimiters;
use iges_base::LeadingDigits;

/// The number of the item at the front of the text if it is digits alone, and the text from its delimiter on. None says
/// nothing of the text.
#[inline(always)]
pub fn plain_number<'t>(
    delims: &Delimiters,
    text: &'t [u8],
    digits: LeadingDigits,
) -> Option<(i64, &'t [u8])>
    requires permitted { IsTrue (are_permitted delims.now) }
    requires digits { AreLeadingDigits text.now digits }
    ensures { IfSome result (λ x. read_item delims.now text.now ≡ Ok (Value.Int x.0, x.1.now)) }
{
    if digits.len == 0 {
        return None;
    }
    let (_, rest) = text.split_at(digits.len);
    let [stop, ..] = rest else {
        return None;
    };
    if !delims.has(*stop) {
        return None;
    }
    Some((digits.value as i64, rest))
}
