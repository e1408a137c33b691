//! Which of the global parameters are texts, integers and reals.

ghost use Rattle.iges_params.specs.Global.{has_kind, have_kinds};
ghost use Rattle.std.specs.Prelude.{◌≡◌};

use iges_fields::Value;

/// The kind of a global parameter (IGES 5.3, 2.2.4.3).
#[derive(Clone, Copy)]
pub enum Kind {
    Text,
    Integer,
    Real,
}

/// The kinds of the parameters 3 to 26 (IGES 5.3, 2.2.4.3.3 to 2.2.4.3.26).
const KINDS: [Kind; 24] = [
    Kind::Text,
    Kind::Text,
    Kind::Text,
    Kind::Text,
    Kind::Integer,
    Kind::Integer,
    Kind::Integer,
    Kind::Integer,
    Kind::Integer,
    Kind::Text,
    Kind::Real,
    Kind::Integer,
    Kind::Text,
    Kind::Integer,
    Kind::Real,
    Kind::Text,
    Kind::Real,
    Kind::Real,
    Kind::Text,
    Kind::Text,
    Kind::Integer,
    Kind::Integer,
    Kind::Text,
    Kind::Text,
];

// Whether the value is of the kind: a value that is left out is of each, and an integer stands for a real too.
fn has_kind(kind: Kind, value: &Value) -> bool
    ensures { result ≡ has_kind kind value.now }
{
    match (kind, value) {
        (_, Value::Default) => true,
        (Kind::Text, Value::Text(_)) => true,
        (Kind::Integer | Kind::Real, Value::Int(_)) => true,
        (Kind::Real, Value::Real(_)) => true,
        _ => false,
    }
}

/// Whether the values of the parameters from the third on are of their kinds. Those past the last kind are of any.
pub fn have_kinds(values: &[Value]) -> bool
    ensures { result ≡ have_kinds values.now }
{
    KINDS
        .iter()
        .zip(values)
        .all(|(kind, value)| has_kind(*kind, value))
}
