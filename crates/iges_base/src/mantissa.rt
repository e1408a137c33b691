//! The front of an item: digits and points, and the number that they write.

ghost use Rattle.iges_base.specs.RealParts.{IsMantissa, up_to_past};
ghost use Rattle.iges_base.specs.Reals.{is_mantissa};
ghost use Rattle.std.specs.Prelude.{◌≡◌, ◌+◌, ◌*◌, ◌<◌, ◌≤◌, List, ℕ, take};

// The first number whose negative 64 signed bits don't hold.
const PAST: u64 = 9_223_372_036_854_775_809;

/// The digits and points at the front of a text.
#[derive(Clone, Copy)]
pub struct Mantissa {
    /// How many bytes they are.
    pub len: usize,
    /// How many of them are points.
    pub points: usize,
    /// The number that they write where none is a point, which stays at the first past 2^63.
    pub value: u64,
}

fn with_digit(value: u64, digit: u8) -> u64
    requires value { value ≤ PAST }
    requires digit { digit < 10 }
    ensures { result ≡ up_to_past (value * 10 + digit) }
{
    if value > PAST / 10 {
        return PAST;
    }
    value * 10 + u64::from(digit)
}

/// The digits and points at the front of the text.
pub fn mantissa_of(text: &[u8]) -> Mantissa
    ensures { IsMantissa text.now result }
{
    let mut len = 0;
    let mut points = 0;
    let mut value = 0;
    'bytes: while len < text.len() {
        let byte = text[len];
        if byte.is_ascii_digit() {
            value = with_digit(value, byte - b'0');
        } else if byte == b'.' {
            points += 1;
        } else {
            break;
        }
        len += 1;
    }
    Mantissa { len, points, value }
}

impl Mantissa {
    /// Whether it is a real's: with a digit and at most one point.
    pub fn is_valid(&self) -> bool
        ensures { (text : List ℕ) → IsMantissa text self.now
            → result ≡ is_mantissa (take self.now.len text) }
    {
        self.points <= 1 && self.points < self.len
    }
}
