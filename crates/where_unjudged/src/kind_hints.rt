//! The hints on what a number names, and on a solid without a shell.

ghost use Rattle.iges_params.specs.Named.{named, values_of};
ghost use Rattle.brep_lists.specs.Record.{int_at};
ghost use Rattle.std.specs.Ordering.{int_eq};
ghost use Rattle.std.specs.Prelude.{◌≡◌, ◌++◌, OnOk, pos};
ghost use Rattle.where_unjudged.specs.KindHints.{empty_hint, form_hint, form_line, form_sentence, hint_of, is_empty_solid, is_no_entry, is_shell, kind_hint, shell_hint, shells_hint};

use brep_lists::int_at;
use iges_base::{EntryNo, NoMemory, Out};
use iges_params::File;
use solid_data::{Failing, Rule};
use where_text::put_signed;

const FORM: &str = "  This entity is a 186, but of another form than 0: no solid that is known.\n";

const SHELL: &str =
    "hint shell\n  This is a shell. To judge it by itself, as an open or a closed one, run\n  igesolid open with this number.\n";

const EMPTY: &str =
    "hint empty-solid\n  The solid names no shell: it's empty. As a rule its body was hidden,\n  suppressed or lost when the file was written.\n";

#[tactic(auto, unfolding(crate::specs::KindHints::form_sentence))]
fn put_form_sentence(out: &mut Out) -> Result<(), NoMemory>
    ensures { OnOk result (out.new ≡ out.old ++ form_sentence) }
{
    out.put(FORM.as_bytes())
}

#[tactic(auto, unfolding(crate::specs::KindHints::form_line))]
fn put_form_line(out: &mut Out, form: i64) -> Result<(), NoMemory>
    ensures { OnOk result (out.new ≡ out.old ++ form_line form) }
{
    out.put(b"hint other-form form")?;
    put_signed(out, form)?;
    out.put(b"\n")
}

#[tactic(auto, unfolding(crate::specs::KindHints::form_hint))]
fn put_form_hint(out: &mut Out, form: i64) -> Result<(), NoMemory>
    ensures { OnOk result (out.new ≡ out.old ++ form_hint form) }
{
    put_form_line(out, form)?;
    put_form_sentence(out)
}

#[tactic(auto, unfolding(crate::specs::KindHints::shell_hint))]
fn put_shell_hint(out: &mut Out) -> Result<(), NoMemory>
    ensures { OnOk result (out.new ≡ out.old ++ shell_hint) }
{
    out.put(SHELL.as_bytes())
}

fn is_shell(kind: i64, form: i64) -> bool
    ensures { result ≡ is_shell kind form }
{
    kind == 514 && (form == 1 || form == 2)
}

#[tactic(auto, unfolding(crate::specs::KindHints::kind_hint))]
fn put_hint_of_kind(out: &mut Out, kind: i64, form: i64) -> Result<(), NoMemory>
    ensures { OnOk result (out.new ≡ out.old ++ kind_hint kind form) }
{
    if kind == 186 {
        return put_form_hint(out, form);
    }
    if is_shell(kind, form) {
        return put_shell_hint(out);
    }
    Ok(())
}

/// Appends what an entity is that is no solid, where it is a 186 of another form or a shell.
pub fn put_kind_hint(out: &mut Out, file: &File, no: EntryNo) -> Result<(), NoMemory>
    ensures { OnOk result (out.new ≡ out.old ++ hint_of (named file.now (pos no.0))) }
{
    match file.entry(no) {
        Some(entry) => put_hint_of_kind(out, entry.kind, entry.form),
        None => Ok(()),
    }
}

fn is_no_entry(rule: Rule) -> bool
    ensures { result ≡ is_no_entry rule }
{
    match rule {
        Rule::NoEntry => true,
        _ => false,
    }
}

// The number of the first shell that a solid names; 0 where its record gives none.
fn first_shell(file: &File, no: EntryNo) -> i64
    ensures { result ≡ int_at (values_of file.now (pos no.0)) 0 }
{
    match file.values(no) {
        Some(values) => int_at(values, 0),
        None => 0,
    }
}

fn is_empty_solid(file: &File, no: EntryNo, failing: Failing) -> bool
    ensures { result ≡ is_empty_solid file.now no failing }
{
    is_no_entry(failing.rule)
        && failing.entity.0 == no.0
        && failing.place == 1
        && first_shell(file, no) == 0
}

#[tactic(auto, unfolding(crate::specs::KindHints::empty_hint))]
fn put_empty_hint(out: &mut Out) -> Result<(), NoMemory>
    ensures { OnOk result (out.new ≡ out.old ++ empty_hint) }
{
    out.put(EMPTY.as_bytes())
}

/// Appends that a solid names no shell, where that is what fails.
#[tactic(auto, unfolding(crate::specs::KindHints::shells_hint))]
pub fn put_shells_hint(
    out: &mut Out,
    file: &File,
    no: EntryNo,
    failing: Failing,
) -> Result<(), NoMemory>
    ensures { OnOk result (out.new ≡ out.old ++ shells_hint file.now no failing) }
{
    if is_empty_solid(file, no, failing) {
        return put_empty_hint(out);
    }
    Ok(())
}
