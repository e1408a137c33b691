//! The colour of an entity.

ghost use Rattle.iges_directory.specs.Bounds.{IsBounded, fits_columns};
ghost use Rattle.std.specs.Prelude.{◌≡◌, ◌++◌, IsTrue, OnOk, option_copied};
ghost use Rattle.where_entities.specs.Facts.{colour_fact, colour_word, colour_words, definition_of, definition_words, share_word, text_word};

use iges_base::{NoMemory, Out};
use iges_directory::Entry;
use iges_fields::{Value, Values};
use iges_params::File;
use where_text::{put_signed, put_text, put_value, put_word};

// The colours that have a number of their own (IGES 5.3, 2.2.4.4.13).
fn colour_word(n: i64) -> &'static str
    ensures { result.now ≡ colour_word n }
{
    if n == 1 {
        "black"
    } else if n == 2 {
        "red"
    } else if n == 3 {
        "green"
    } else if n == 4 {
        "blue"
    } else if n == 5 {
        "yellow"
    } else if n == 6 {
        "magenta"
    } else if n == 7 {
        "cyan"
    } else if n == 8 {
        "white"
    } else {
        "other"
    }
}

// The values of the colour definition that the number names (IGES 5.3, type 314).
fn definition_of(file: &File, number: i64) -> Option<&Values>
    ensures { option_copied result ≡ definition_of file.now number }
{
    let no = file.entry_no_of(number)?;
    match file.entry(no) {
        Some(entry) if entry.kind == 314 => file.values(no),
        _ => None,
    }
}

// One of the three shares of a colour definition; a text is shown as a hyphen.
fn put_share(out: &mut Out, value: Option<&Value>) -> Result<(), NoMemory>
    ensures { OnOk result (out.new ≡ out.old ++ share_word (option_copied value.entry)) }
{
    match value {
        Some(Value::Text(_)) => out.put(b" -"),
        value => put_value(out, value),
    }
}

// The name of a colour definition, where it has one.
fn put_text_value(out: &mut Out, value: Option<&Value>) -> Result<(), NoMemory>
    ensures { OnOk result (out.new ≡ out.old ++ text_word (option_copied value.entry)) }
{
    match value {
        Some(Value::Text(text)) => {
            out.put(b" ")?;
            put_text(out, text.as_slice())
        }
        _ => Ok(()),
    }
}

// The shares of red, green and blue of a colour definition, and its name.
#[tactic(auto, unfolding(crate::specs::Facts::definition_words))]
fn put_definition(out: &mut Out, definition: Option<&Values>) -> Result<(), NoMemory>
    ensures { OnOk result (out.new ≡ out.old ++ definition_words (option_copied definition.entry)) }
{
    let Some(values) = definition else {
        return Ok(());
    };
    put_share(out, values.get(0))?;
    put_share(out, values.get(1))?;
    put_share(out, values.get(2))?;
    put_text_value(out, values.get(3))
}

#[tactic(auto, unfolding(crate::specs::Facts::colour_words))]
fn put_colour_words(out: &mut Out, file: &File, colour: i64) -> Result<(), NoMemory>
    requires { IsTrue (fits_columns colour) }
    ensures { OnOk result (out.new ≡ out.old ++ colour_words file.now colour) }
{
    if colour > 0 {
        return put_word(out, colour_word(colour));
    }
    put_definition(out, definition_of(file, -colour))
}

// The fact of this colour, where it is one.
#[tactic(auto, unfolding(crate::specs::Facts::colour_fact))]
fn put_colour_fact(out: &mut Out, file: &File, colour: i64) -> Result<(), NoMemory>
    requires { IsTrue (fits_columns colour) }
    ensures { OnOk result (out.new ≡ out.old ++ colour_fact file.now colour) }
{
    if colour == 0 {
        return Ok(());
    }
    out.put(b"  colour")?;
    put_signed(out, colour)?;
    put_colour_words(out, file, colour)?;
    out.put(b"\n")
}

/// Appends the fact of an entry's colour, where it has one: its number; then the word of a positive one, or the shares of
/// red, green and blue and the name as the colour definition spells them that a negated one names (IGES 5.3, 2.2.4.4.13).
pub fn put_colour(out: &mut Out, file: &File, entry: &Entry) -> Result<(), NoMemory>
    requires { IsBounded entry.now }
    ensures { OnOk result (out.new ≡ out.old ++ colour_fact file.now entry.now.colour) }
{
    put_colour_fact(out, file, entry.colour)
}
