//! What may stand at one place of a form: a fixed word, a name or a number.

ghost use Rattle.iges_solid_cmd.specs.Forms.{fits, holds};
ghost use Rattle.iges_solid_cmd.specs.FormTable.{slot_meant};
ghost use Rattle.std.specs.Prelude.{◌≡◌, Some, true};
ghost use Rattle.std.specs.Str.Parse.{digits_value};

use command_replies::number_in;
use iges_base::LINE_LIMIT;

/// What a word of a form is.
#[derive(Clone, Copy)]
pub enum FormSlot {
    /// This very word.
    Word(&'static str),
    /// The name of a file.
    File,
    /// The name of a certificate.
    Certificate,
    /// A number of at least one digit and at most so many, from the least to the greatest.
    Number {
        digits: usize,
        least: u32,
        greatest: u32,
    },
}

/// What a command takes from the words.
#[derive(Clone, Copy)]
pub enum Operand {
    File,
    Certificate,
    Number,
}

/// The directory number of an entry: that of the first of its two lines (IGES 5.3, 2.2.4.4).
pub const ENTRY_NUMBER: FormSlot = FormSlot::Number {
    digits: 7,
    least: 1,
    greatest: LINE_LIMIT as u32,
};

/// The size of a sample.
pub const SAMPLE_NUMBER: FormSlot = FormSlot::Number {
    digits: 3,
    least: 3,
    greatest: 200,
};

impl FormSlot {
    /// Whether a word may be in the slot.
    pub fn fits(self, word: &str) -> bool
        ensures { result ≡ fits (slot_meant self) word.now }
    {
        match self {
            FormSlot::Word(text) => word == text,
            FormSlot::File | FormSlot::Certificate => true,
            FormSlot::Number {
                digits,
                least,
                greatest,
            } => number_in(word, digits, least, greatest).is_some(),
        }
    }

    /// Whether the slot is for such a word.
    pub fn holds(self, what: Operand) -> bool
        ensures { result ≡ holds what (slot_meant self) }
    {
        match self {
            FormSlot::Word(_) => false,
            FormSlot::File => what == Operand::File,
            FormSlot::Certificate => what == Operand::Certificate,
            FormSlot::Number { .. } => what == Operand::Number,
        }
    }

    /// The number that a fitting word writes; None where the slot is not for numbers.
    pub fn number(self, word: &str) -> Option<u32>
        ensures { holds Operand.Number (slot_meant self) ≡ true
            → fits (slot_meant self) word.now ≡ true → result ≡ Some (digits_value 10 word.now) }
    {
        match self {
            FormSlot::Number {
                digits,
                least,
                greatest,
            } => number_in(word, digits, least, greatest),
            _ => None,
        }
    }
}
