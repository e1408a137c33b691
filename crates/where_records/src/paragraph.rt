//! The paragraph of a rule that fails of a record.

ghost use Rattle.std.specs.Prelude.{◌≡◌, ◌++◌, OnOk};
ghost use Rattle.where_records.specs.RecordText.{head_lines, path_entries, path_lines, record_named, record_text};

use crate::facts::put_bad_facts;
use iges_base::{EntryNo, NoMemory, Out};
use record_paths::{Path, put_path};
use record_values::bad_value;
use solid_data::Failing;
use std::alloc::Global;
use where_places::PlacedFile;
use where_text::{EntryNumbers, put_number, put_rule_sentence, put_word};

// The line of the rule, its sentence, and the line of the item.
#[tactic(auto, unfolding(crate::specs::RecordText::head_lines))]
fn put_head(out: &mut Out, failing: Failing) -> Result<(), NoMemory>
    ensures { OnOk result (out.new ≡ out.old ++ head_lines failing) }
{
    out.put(b"\nrule")?;
    put_word(out, failing.rule.name())?;
    out.put(b" faults 1\n")?;
    put_rule_sentence(out, failing.rule)?;
    out.put(b"item")?;
    put_number(out, u64::from(failing.entity.0))?;
    put_number(out, u64::from(failing.place))?;
    out.put(b"\n")
}

// The path, where there is one.
fn put_path_lines(
    out: &mut Out,
    named: &mut EntryNumbers,
    solid: EntryNo,
    path: Option<Path>,
) -> Result<(), NoMemory>
    ensures text { OnOk result (out.new ≡ out.old ++ path_lines solid path) }
    ensures named { OnOk result (named.new ≡ named.old ++ path_entries solid path) }
{
    match path {
        Some(path) => put_path(out, named, solid, &path),
        None => Ok(()),
    }
}

/// A rule on records that fails: the number that a solid was looked for at, what fails, and the path to it where the number
/// names a solid.
#[derive(Clone, Copy)]
pub struct FailingRecord {
    pub solid: EntryNo,
    pub failing: Failing,
    pub path: Option<Path>,
}

/// Appends the paragraph of a rule on the records of a solid that fails, with its empty line: the rule and its
/// sentence, the entity and the place, the bad value, where it stands in the file and what is due there, what the rule says of it, and the path to
/// it, if there is one. The entity and those on the path join those that facts name. It errs only where memory
/// runs out; then some of the paragraph may have been appended. It goes once over the record of the failing entity,
/// and for a shell, a face or a loop that is named twice once over the solid's records up to the first place.
#[tactic(auto, unfolding(crate::specs::RecordText::record_text, crate::specs::RecordText::record_named))]
pub fn put_record(
    alloc: Global,
    out: &mut Out,
    named: &mut EntryNumbers,
    placed: &PlacedFile,
    fault: FailingRecord,
) -> Result<(), NoMemory>
    ensures text { OnOk result (out.new ≡ out.old
        ++ record_text placed.now fault.solid fault.failing fault.path) }
    ensures named { OnOk result (named.new ≡ named.old
        ++ record_named fault.solid fault.failing fault.path) }
{
    put_head(out, fault.failing)?;
    named.push(fault.failing.entity)?;
    let bad = bad_value(&placed.file, fault.failing);
    put_bad_facts(alloc, out, placed, fault.solid, fault.failing, bad)?;
    put_path_lines(out, named, fault.solid, fault.path)
}
