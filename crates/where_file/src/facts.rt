//! The facts of a line of the file that fails.

ghost use Rattle.std.specs.Prelude.{◌≡◌, ◌<◌, ◌++◌, ◌∷◌, OnOk, drop, take};
ghost use Rattle.where_file.specs.LineFacts.{column_fact, end_word, hex_byte, hex_digit, hex_fact, hex_words, field_mark, line_facts, line_head, start_of};

use crate::fields::Field;
use iges_base::{NoMemory, Out};
use value_lines::{put_mark, put_text};
use where_places::{has_cr, has_lf, line_of};
use where_text::{put_number, put_word};

fn end_word(lf: bool, cr: bool) -> &'static str
    ensures { result.now ≡ end_word lf cr }
{
    match (lf, cr) {
        (true, false) => "lf",
        (true, true) => "crlf",
        (false, true) => "cr",
        (false, false) => "none",
    }
}

/// Appends the line that tells the number of a line of the file, how many bytes it has, and its end. The bytes are those of
/// the file from this line on.
#[tactic(auto, unfolding(crate::specs::LineFacts::line_head))]
pub fn put_line_head(out: &mut Out, number: u64, bytes: &[u8]) -> Result<(), NoMemory>
    ensures { OnOk result (out.new ≡ out.old ++ line_head number bytes.now) }
{
    out.put(b"line")?;
    put_number(out, number)?;
    out.put(b" bytes")?;
    put_number(out, line_of(bytes).len() as u64)?;
    out.put(b" end")?;
    put_word(out, end_word(has_lf(bytes), has_cr(bytes)))?;
    out.put(b"\n")
}

fn hex_digit(d: u8) -> u8
    requires { d < 16 }
    ensures { result ≡ hex_digit d }
{
    if d < 10 { b'0' + d } else { b'a' - 10 + d }
}

#[tactic(auto, unfolding(crate::specs::LineFacts::hex_byte))]
fn put_hex_byte(out: &mut Out, byte: u8) -> Result<(), NoMemory>
    ensures { OnOk result (out.new ≡ out.old ++ 32 ∷ hex_byte byte) }
{
    out.put(&[b' ', hex_digit(byte / 16), hex_digit(byte % 16)])
}

#[tactic(auto, unfolding(crate::specs::LineFacts::hex_words))]
fn put_hex_words(out: &mut Out, bytes: &[u8]) -> Result<(), NoMemory>
    ensures { OnOk result (out.new ≡ out.old ++ hex_words bytes.now) }
{
    'bytes: for byte in bytes {
        put_hex_byte(out, *byte)?;
    }
    Ok(())
}

// The first of these bytes.
fn first_bytes(bytes: &[u8], count: usize) -> &[u8]
    ensures { result.now ≡ take count bytes.now }
{
    &bytes[..count.min(bytes.len())]
}

#[tactic(auto, unfolding(crate::specs::LineFacts::hex_fact))]
fn put_hex(out: &mut Out, bytes: &[u8]) -> Result<(), NoMemory>
    ensures { OnOk result (out.new ≡ out.old ++ hex_fact bytes.now) }
{
    out.put(b"  hex")?;
    put_hex_words(out, first_bytes(bytes, 16))?;
    out.put(b"\n")
}

fn put_column(out: &mut Out, field: Option<Field>) -> Result<(), NoMemory>
    ensures { OnOk result (out.new ≡ out.old ++ column_fact field) }
{
    let Some(field) = field else {
        return Ok(());
    };
    out.put(b"  column")?;
    put_number(out, field.column as u64)?;
    out.put(b"\n")
}

fn put_field_mark(out: &mut Out, field: Option<Field>) -> Result<(), NoMemory>
    ensures { OnOk result (out.new ≡ out.old ++ field_mark field) }
{
    match field {
        Some(field) => put_mark(out, field.column.saturating_sub(1), field.width),
        None => Ok(()),
    }
}

fn start_of(field: Option<Field>) -> usize
    ensures { result ≡ start_of field }
{
    match field {
        Some(field) => field.column.saturating_sub(1),
        None => 0,
    }
}

// The bytes behind the first ones.
fn behind(line: &[u8], count: usize) -> &[u8]
    ensures { result.now ≡ drop count line.now }
{
    &line[count.min(line.len())..]
}

/// Appends the facts of a line that isn't empty: 16 bytes from the field on or else from its start, the field's column, the
/// first 80 bytes, and a mark below the field.
#[tactic(auto, unfolding(crate::specs::LineFacts::line_facts))]
pub fn put_line_facts(out: &mut Out, line: &[u8], field: Option<Field>) -> Result<(), NoMemory>
    ensures { OnOk result (out.new ≡ out.old ++ line_facts field line.now) }
{
    if line.is_empty() {
        return Ok(());
    }
    put_hex(out, behind(line, start_of(field)))?;
    put_column(out, field)?;
    put_text(out, first_bytes(line, 80))?;
    put_field_mark(out, field)
}
