//! Facts about the bad value of a record.

ghost use Rattle.brep_lists.specs.Record.{int_at};
ghost use Rattle.std.specs.Prelude.{◌≡◌, ◌++◌, ◌+◌, ◌<◌, ◌^◌, IfSome, OnOk, option_copied, slice_get};
ghost use Rattle.where_records.specs.RecordText.{bad_facts, before, count_fact, due_fact, first_fact, found, judged, list_fact, named_fact, rule_facts, value_fact, value_words, values_in};
ghost use Rattle.where_text.specs.Spelled.{space_word};

use crate::why::why;
use brep_lists::int_at;
use iges_base::{EntryNo, NoMemory, Out};
use iges_fields::Value;
use iges_params::File;
use record_values::{BadValue, Due, Naming, entry_named, first_naming, item_count};
use solid_data::{Failing, Rule};
use std::alloc::Global;
use value_lines::put_value_lines;
use where_places::PlacedFile;
use where_text::{put_number, put_signed, put_type, put_value, put_word};

// The value in a place of a record, from 0.
fn value_in(file: &File, no: EntryNo, place: usize) -> Option<&Value>
    ensures { option_copied result ≡ slice_get (values_in file.now no) place }
{
    match file.values(no) {
        Some(values) => values.get(place),
        None => None,
    }
}

// The integer in a place of a record, from 0.
fn number_in(file: &File, no: EntryNo, place: usize) -> i64
    ensures { result ≡ int_at (values_in file.now no) place }
{
    match file.values(no) {
        Some(values) => int_at(values, place),
        None => 0,
    }
}

// The value that was found, or `end` where the record ends before it.
fn put_found(out: &mut Out, value: Option<&Value>) -> Result<(), NoMemory>
    ensures { OnOk result (out.new ≡ out.old ++ space_word (found (option_copied value.entry))) }
{
    if value.is_none() {
        return put_word(out, "end");
    }
    put_value(out, value)
}

// The value in a place of a record, by its number from 1.
#[tactic(auto, unfolding(crate::specs::RecordText::value_words))]
fn put_value_words(out: &mut Out, file: &File, no: EntryNo, place: usize) -> Result<(), NoMemory>
    requires { place < 2 ^ 63 }
    ensures { OnOk result (out.new ≡ out.old ++ value_words (values_in file.now no) place) }
{
    out.put(b"  value")?;
    put_number(out, place as u64 + 1)?;
    out.put(b" found")?;
    put_found(out, value_in(file, no, place))?;
    out.put(b"\n")
}

// The bad value and where it stands, where there is one.
fn put_bad_value(
    alloc: Global,
    out: &mut Out,
    placed: &PlacedFile,
    no: EntryNo,
    place: Option<usize>,
) -> Result<(), NoMemory>
    requires { IfSome place (λ i. i < 2 ^ 63) }
    ensures { OnOk result (out.new ≡ out.old ++ value_fact placed.now no place) }
{
    let Some(place) = place else {
        return Ok(());
    };
    put_value_words(out, &placed.file, no, place)?;
    put_value_lines(alloc, out, placed, no, place)
}

// What is due, where the rule says it.
fn put_due(out: &mut Out, due: Option<Due>) -> Result<(), NoMemory>
    ensures { OnOk result (out.new ≡ out.old ++ due_fact due) }
{
    let Some(due) = due else {
        return Ok(());
    };
    out.put(b"  due")?;
    put_word(out, due.word())?;
    out.put(b"\n")
}

// The number that is judged.
fn judged(file: &File, no: EntryNo, place: Option<usize>) -> i64
    ensures { result ≡ judged file.now no place }
{
    match place {
        Some(place) => number_in(file, no, place),
        None => i64::from(no.0),
    }
}

// What a number names, or why it names nothing.
#[tactic(auto, unfolding(crate::specs::RecordText::named_fact))]
fn put_named(out: &mut Out, file: &File, number: i64) -> Result<(), NoMemory>
    ensures { OnOk result (out.new ≡ out.old ++ named_fact file.now number) }
{
    let Some(entry) = entry_named(file, number) else {
        out.put(b"  why")?;
        put_word(out, why(file, number))?;
        return out.put(b"\n");
    };
    out.put(b"  entry")?;
    put_signed(out, number)?;
    put_type(out, file, number)?;
    out.put(b" form")?;
    put_signed(out, entry.form)?;
    out.put(b"\n")
}

// How many values a record has.
fn put_count(out: &mut Out, file: &File, no: EntryNo) -> Result<(), NoMemory>
    ensures { OnOk result (out.new ≡ out.old ++ count_fact (values_in file.now no)) }
{
    out.put(b"  values")?;
    let count = match file.values(no) {
        Some(values) => values.len(),
        None => 0,
    };
    put_number(out, count as u64)?;
    out.put(b"\n")
}

// The place that names a number first.
fn put_first(out: &mut Out, first: Option<Naming>) -> Result<(), NoMemory>
    ensures { OnOk result (out.new ≡ out.old ++ first_fact first) }
{
    let Some(first) = first else {
        return Ok(());
    };
    out.put(b"  first")?;
    put_signed(out, first.entity)?;
    out.put(b" item")?;
    put_number(out, first.item)?;
    out.put(b"\n")
}

// The list that a number names.
#[tactic(auto, unfolding(crate::specs::RecordText::list_fact))]
fn put_list(out: &mut Out, file: &File, number: i64) -> Result<(), NoMemory>
    ensures { OnOk result (out.new ≡ out.old ++ list_fact file.now number) }
{
    out.put(b"  list")?;
    put_signed(out, number)?;
    put_type(out, file, number)?;
    out.put(b" items")?;
    put_number(out, item_count(file, number) as u64)?;
    out.put(b"\n")
}

// The place before another.
fn before(place: Option<usize>) -> Option<usize>
    ensures { result ≡ before place }
{
    match place {
        Some(place) => Some(place.saturating_sub(1)),
        None => None,
    }
}

// What the rule says of a solid, where this is the place of the bad value.
fn put_rule_facts(
    out: &mut Out,
    file: &File,
    solid: EntryNo,
    failing: Failing,
    place: Option<usize>,
) -> Result<(), NoMemory>
    ensures { OnOk result (out.new ≡ out.old
        ++ rule_facts file.now solid failing.entity place failing.rule) }
{
    let no = failing.entity;
    match failing.rule {
        Rule::NoEntry | Rule::WrongKind | Rule::BadGeometry => {
            put_named(out, file, judged(file, no, place))
        }
        Rule::BadLayout => put_count(out, file, no),
        Rule::Twice => {
            let number = judged(file, no, place);
            put_first(out, first_naming(file, i64::from(solid.0), number))
        }
        Rule::BadIndex => put_list(out, file, judged(file, no, before(place))),
        _ => Ok(()),
    }
}

/// Appends the facts about the bad value of a solid's record. It errs only where memory runs out; then some of
/// them may have been appended.
#[tactic(auto, unfolding(crate::specs::RecordText::bad_facts))]
pub fn put_bad_facts(
    alloc: Global,
    out: &mut Out,
    placed: &PlacedFile,
    solid: EntryNo,
    failing: Failing,
    bad: BadValue,
) -> Result<(), NoMemory>
    requires { IfSome bad.place (λ place. place < 2 ^ 63) }
    ensures { OnOk result (out.new ≡ out.old ++ bad_facts placed.now solid failing bad) }
{
    put_bad_value(alloc, out, placed, failing.entity, bad.place)?;
    put_due(out, bad.due)?;
    put_rule_facts(out, &placed.file, solid, failing, bad.place)
}
