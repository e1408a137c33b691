//! The columns of which a reason speaks.

ghost use Rattle.std.specs.Prelude.{◌≡◌};
ghost use Rattle.where_file.specs.LineFacts.{field_of};

use iges_lines::Reason;

/// Some columns of a line, one after another, the first counted from 1.
#[derive(Clone, Copy)]
pub struct Field {
    pub column: usize,
    pub width: usize,
}

/// The columns of which a reason speaks; None where it tells none.
pub fn field_of(reason: Reason) -> Option<Field>
    ensures { result ≡ field_of reason }
{
    match reason {
        Reason::Letter => Some(Field {
            column: 73,
            width: 1,
        }),
        Reason::Number => Some(Field {
            column: 74,
            width: 7,
        }),
        Reason::TypesDiffer => Some(Field {
            column: 1,
            width: 8,
        }),
        Reason::Range => Some(Field {
            column: 25,
            width: 8,
        }),
        Reason::BackPointer => Some(Field {
            column: 66,
            width: 7,
        }),
        Reason::RecordType => Some(Field {
            column: 1,
            width: 8,
        }),
        _ => None,
    }
}
