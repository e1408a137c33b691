//! The keys of records.

ghost use Rattle.equal_values.specs.Keys.{marked};
ghost use Rattle.record_numbers.specs.EqualRecords.{pointer};
ghost use Rattle.record_numbers.specs.Marked.{HasNumber, HaveNumbers, IsKey, IsToldKey, alone_key, part_key};
ghost use Rattle.record_numbers.specs.Parts.{said, said_all};
ghost use Rattle.std.specs.Fmt.{signed_decimal};
ghost use Rattle.std.specs.Int.Signed.{mag};
ghost use Rattle.std.specs.Prelude.{◌≡◌, ◌<◌, ◌^◌, ◌++◌, IfOk, IfSome, IsTrue, OnOk, Some, flat_map, pos};

use crate::marks::{Mark, mark_of};
use crate::told::{Part, Told, told_of};
use equal_values::{put_key, put_text};
use iges_base::NoMemory;
use iges_fields::Value;
use iges_params::File;
use itoa::Buffer;
use std::alloc::Global;

fn put_number(text: &mut Vec<u8>, number: i64) -> Result<(), NoMemory>
    ensures small { mag number < 2 ^ 63 }
    ensures text { OnOk result (text.new.items ≡ text.old.items ++ marked (signed_decimal number)) }
{
    put_text(text, Buffer::new().format(number).as_bytes())
}

// Appends the number of what is named, and says whether it has one.
fn put_pointer(text: &mut Vec<u8>, marks: &[Mark], number: i64) -> Result<bool, NoMemory>
    ensures { IfOk result (λ put. IsTrue put → HasNumber marks.now (pointer (Some number))
        × (text.new.items ≡ text.old.items ++ part_key marks.now (pointer (Some number)))) }
{
    match mark_of(marks, number) {
        Mark::Numbered(x) => {
            text.push(3)?;
            put_text(text, Buffer::new().format(x).as_bytes())?;
            Ok(true)
        }
        _ => Ok(false),
    }
}

// Appends the key of a part, and says whether what it names has a number.
fn put_part(
    alloc: Global,
    text: &mut Vec<u8>,
    marks: &[Mark],
    part: &Part<'_>,
) -> Result<bool, NoMemory>
    ensures { IfOk result (λ put. IsTrue put → HasNumber marks.now (said part.now)
        × (text.new.items ≡ text.old.items ++ part_key marks.now (said part.now))) }
{
    match part {
        Part::Pointer(Some(number)) => return put_pointer(text, marks, *number),
        Part::Pointer(None) => text.push(2)?,
        Part::Cut => put_key(alloc, text, &Value::Int(0))?,
        Part::Plain(value) => put_key(alloc, text, value)?,
    }
    Ok(true)
}

fn put_parts(
    alloc: Global,
    text: &mut Vec<u8>,
    marks: &[Mark],
    parts: &[Part<'_>],
) -> Result<bool, NoMemory>
    ensures { IfOk result (λ put. IsTrue put → HaveNumbers marks.now (said_all parts.now)
        × (text.new.items ≡ text.old.items ++ flat_map (part_key marks.now) (said_all parts.now))) }
{
    'parts: for part in parts {
        if !put_part(alloc, text, marks, part)? {
            return Ok(false);
        }
    }
    Ok(true)
}

// The key of a record, if all that it names has numbers.
fn told_key(alloc: Global, marks: &[Mark], told: &Told<'_>) -> Result<Option<Vec<u8>>, NoMemory>
    ensures { IfOk result (λ key. IfSome key (λ k. IsToldKey marks.now (pos 0) (Some told.now) k.items)) }
{
    let mut key = Vec::new(alloc);
    put_number(&mut key, told.kind)?;
    put_number(&mut key, told.form)?;
    if !put_parts(alloc, &mut key, marks, told.parts.as_slice())? {
        return Ok(None);
    }
    Ok(Some(key))
}

/// The key of an entry that is equal to itself alone.
pub fn alone_key(alloc: Global, number: i64) -> Result<Vec<u8>, NoMemory>
    ensures small { mag number < 2 ^ 63 }
    ensures key { IfOk result (λ key. key.items ≡ alone_key number) }
{
    let mut key = Vec::new(alloc);
    key.push(2)?;
    key.extend_from_slice(Buffer::new().format(number).as_bytes())?;
    Ok(key)
}

/// The key of the entry that a number names, if all that it names has numbers.
pub fn key_of(
    alloc: Global,
    file: &File,
    marks: &[Mark],
    number: i64,
) -> Result<Option<Vec<u8>>, NoMemory>
    ensures { IfOk result (λ key. IfSome key (λ k. IsKey file.now marks.now number k.items)) }
{
    match told_of(alloc, file, number)? {
        Some(told) => told_key(alloc, marks, &told),
        None => Ok(Some(alone_key(alloc, number)?)),
    }
}
