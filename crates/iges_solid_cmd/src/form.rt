//! The listed forms of the words, and the commands that they ask for.

ghost use Rattle.iges_solid_cmd.specs.Forms.{all_fit, command_of, fits, form_of, forms, holds, named, word_in};
ghost use Rattle.iges_solid_cmd.specs.FormTable.{command_for, form_meant, slot_meant};
ghost use Rattle.std.specs.List.{list_all};
ghost use Rattle.std.specs.Prelude.{◌≡◌, None, MatchOption, Some, find, map, option_map, position, slice_get, string_bytes, true, zip};
ghost use Rattle.std.specs.Str.Parse.{digits_value};

use crate::form_slot::{ENTRY_NUMBER, FormSlot, Operand, SAMPLE_NUMBER};

/// A command for all of a file.
#[derive(Clone, Copy)]
pub enum WholeCommand {
    /// The directory numbers of the solids of a file.
    Solids,
    /// A certificate that all solids of a file are closed.
    CertifyAll,
}

/// A command for a solid or a shell of a file.
#[derive(Clone, Copy)]
pub enum EntityCommand {
    /// What the shells of a solid are made of.
    Show,
    /// A certificate that a solid is closed.
    Certify,
    /// A file of a solid alone, with all that it refers to.
    Extract,
    /// A certificate that a shell is sound as an open one.
    Open,
    /// Face flags under which each edge of a solid is used in opposite directions, or a ring of faces for which there are
    /// none.
    Orient,
    /// A file of a solid alone, whose lists hold only what it uses.
    Compact,
}

/// A command for a file and a certificate.
#[derive(Clone, Copy)]
pub enum CertificateCommand {
    /// Whether a certificate is accepted for a file.
    Verify,
    /// An accepted certificate as one of the current version.
    Upgrade,
    /// Whether a certificate of an open shell is accepted for a file.
    OpenVerify,
    /// Whether an orientation fits a file.
    OrientVerify,
}

/// A command for a file.
#[derive(Clone, Copy)]
pub enum FileCommand {
    /// One for all of it.
    Whole(WholeCommand),
    /// One for the solid or the shell with this directory number.
    Entity(EntityCommand, u32),
    /// One for it and a certificate.
    Certificate(CertificateCommand),
}

/// A command that the words ask for.
#[derive(Clone, Copy)]
pub enum Command {
    /// One for a file.
    File(FileCommand),
    /// The sample solid of so many times so many faces, from 3 to 200.
    Sample(u32),
}

/// Which command a form asks for, without its number.
#[derive(Clone, Copy)]
pub enum CommandKind {
    Whole(WholeCommand),
    Entity(EntityCommand),
    Certificate(CertificateCommand),
    Sample,
}

/// What the words of a command line may be, one by one, and the command that they ask for.
#[derive(Clone, Copy)]
pub struct Form {
    /// One for each word, in the order of the words.
    pub slots: &'static [FormSlot],
    pub kind: CommandKind,
}

// The listed forms, in the order of the usage line.
const FORMS: &[Form] = &[
    Form {
        slots: &[FormSlot::Word("solids"), FormSlot::File],
        kind: CommandKind::Whole(WholeCommand::Solids),
    },
    Form {
        slots: &[FormSlot::Word("show"), FormSlot::File, ENTRY_NUMBER],
        kind: CommandKind::Entity(EntityCommand::Show),
    },
    Form {
        slots: &[FormSlot::Word("certify"), FormSlot::File, ENTRY_NUMBER],
        kind: CommandKind::Entity(EntityCommand::Certify),
    },
    Form {
        slots: &[
            FormSlot::Word("verify"),
            FormSlot::File,
            FormSlot::Certificate,
        ],
        kind: CommandKind::Certificate(CertificateCommand::Verify),
    },
    Form {
        slots: &[FormSlot::Word("extract"), FormSlot::File, ENTRY_NUMBER],
        kind: CommandKind::Entity(EntityCommand::Extract),
    },
    Form {
        slots: &[FormSlot::Word("sample"), SAMPLE_NUMBER],
        kind: CommandKind::Sample,
    },
    Form {
        slots: &[
            FormSlot::Word("upgrade"),
            FormSlot::File,
            FormSlot::Certificate,
        ],
        kind: CommandKind::Certificate(CertificateCommand::Upgrade),
    },
    Form {
        slots: &[
            FormSlot::Word("certify"),
            FormSlot::File,
            FormSlot::Word("all"),
        ],
        kind: CommandKind::Whole(WholeCommand::CertifyAll),
    },
    Form {
        slots: &[FormSlot::Word("open"), FormSlot::File, ENTRY_NUMBER],
        kind: CommandKind::Entity(EntityCommand::Open),
    },
    Form {
        slots: &[
            FormSlot::Word("open-verify"),
            FormSlot::File,
            FormSlot::Certificate,
        ],
        kind: CommandKind::Certificate(CertificateCommand::OpenVerify),
    },
    Form {
        slots: &[FormSlot::Word("orient"), FormSlot::File, ENTRY_NUMBER],
        kind: CommandKind::Entity(EntityCommand::Orient),
    },
    Form {
        slots: &[
            FormSlot::Word("orient-verify"),
            FormSlot::File,
            FormSlot::Certificate,
        ],
        kind: CommandKind::Certificate(CertificateCommand::OrientVerify),
    },
    Form {
        slots: &[FormSlot::Word("compact"), FormSlot::File, ENTRY_NUMBER],
        kind: CommandKind::Entity(EntityCommand::Compact),
    },
];

impl CommandKind {
    // The command of this kind, for the number where it takes one.
    fn command(self, n: u32) -> Command
        ensures { result ≡ command_for self n }
    {
        match self {
            CommandKind::Whole(command) => Command::File(FileCommand::Whole(command)),
            CommandKind::Entity(command) => Command::File(FileCommand::Entity(command, n)),
            CommandKind::Certificate(command) => Command::File(FileCommand::Certificate(command)),
            CommandKind::Sample => Command::Sample(n),
        }
    }
}

// Whether each word fits the slot at its place.
fn each_fits(slots: &[FormSlot], words: &[String]) -> bool
    ensures { result ≡ list_all (λ p. fits (slot_meant p.0) (string_bytes p.1))
        (zip slots.now words.now) }
{
    slots
        .iter()
        .zip(words)
        .all(|(slot, word)| slot.fits(word.as_str()))
}

// The word at a place, from 0.
fn word_at(words: &[String], place: usize) -> Option<&str>
    ensures { MatchOption result (slice_get (map string_bytes words.now) place ≡ None)
        (λ word. slice_get (map string_bytes words.now) place ≡ Some word.now) }
{
    match words.get(place) {
        Some(word) => Some(word.as_str()),
        None => None,
    }
}

impl Form {
    // Whether the words are in the slots, one in each.
    fn fits(self, words: &[String]) -> bool
        ensures { result ≡ all_fit (form_meant self).slots (map string_bytes words.now) }
    {
        self.slots.len() == words.len() && each_fits(self.slots, words)
    }

    // The place of the first slot for such a word, from 0.
    fn place(self, what: Operand) -> Option<usize>
        ensures { result ≡ position (λ slot. holds what (slot_meant slot)) self.slots.now }
    {
        self.slots.iter().position(|slot| slot.holds(what))
    }

    fn slot(self, place: usize) -> Option<FormSlot>
        ensures { result ≡ slice_get self.slots.now place }
    {
        self.slots.get(place).copied()
    }

    // The word that is in the first slot for such.
    fn word<'a>(self, what: Operand, words: &'a [String]) -> Option<&'a str>
        ensures { MatchOption result (word_in what (form_meant self).slots
            (map string_bytes words.now) ≡ None) (λ word. word_in what (form_meant self).slots
            (map string_bytes words.now) ≡ Some word.now) }
    {
        let place = self.place(what)?;
        word_at(words, place)
    }

    // The number among words that are in the slots, where there is one.
    fn number(self, words: &[String]) -> Option<u32>
        ensures { all_fit (form_meant self).slots (map string_bytes words.now) ≡ true
            → result ≡ option_map (digits_value 10) (word_in Operand.Number (form_meant self).slots
            (map string_bytes words.now)) }
    {
        let place = self.place(Operand::Number)?;
        let slot = self.slot(place)?;
        let word = word_at(words, place)?;
        slot.number(word)
    }
}

// The first of the forms that the words have.
fn first_form(forms: &[Form], words: &[String]) -> Option<Form>
    ensures { result ≡ find (λ form. all_fit (form_meant form).slots
        (map string_bytes words.now)) forms.now }
{
    forms.iter().copied().find(|form| form.fits(words))
}

/// The listed forms, in the order of the usage line.
pub fn listed() -> &'static [Form]
    ensures { map form_meant result.now ≡ forms }
{
    FORMS
}

// The first listed form that the words have.
fn form_of(words: &[String]) -> Option<Form>
    ensures { option_map form_meant result ≡ form_of (map string_bytes words.now) }
{
    first_form(listed(), words)
}

/// The command of the first listed form that the words have.
pub fn command_in(words: &[String]) -> Option<Command>
    ensures { result ≡ command_of (map string_bytes words.now) }
{
    let form = form_of(words)?;
    Some(form.kind.command(form.number(words).unwrap_or(0)))
}

/// The first word that stands for an operand of this kind, as the form of the words has it. None where the words have no
/// listed form, or their form has no such operand.
pub fn named_in<'a>(what: Operand, words: &'a [String]) -> Option<&'a str>
    ensures { MatchOption result (named what (map string_bytes words.now) ≡ None)
        (λ word. named what (map string_bytes words.now) ≡ Some word.now) }
{
    form_of(words)?.word(what, words)
}
