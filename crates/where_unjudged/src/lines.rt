//! The lines that count what isn't judged.

ghost use Rattle.brep_lists.specs.Record.{items_of};
ghost use Rattle.iges_params.specs.Contents.{Contents};
ghost use Rattle.iges_params.specs.Named.{values_of};
ghost use Rattle.std.specs.Prelude.{◌≡◌, ◌<◌, ◌++◌, [], IsTrue, OnOk, flat_map, length, pos};
ghost use Rattle.where_text.specs.Spelled.{space_word};
ghost use Rattle.where_unjudged.specs.Counts.{AreTypeCounts, are_counted};
ghost use Rattle.where_unjudged.specs.Lines.{face_fact, faces_word, form_of, line_of_count, member_fact, member_facts, member_lines, shell_fact, type_line, unjudged_line};

use crate::counting::count_of;
use crate::loose::type_of_members;
use crate::marking::shell_of;
use crate::member::Member;
use iges_base::{EntryNo, NoMemory, Out};
use iges_fields::Values;
use iges_params::File;
use where_text::{
    EntryNumbers, Listing, put_more_facts, put_number, put_signed, put_type_word, put_word,
    shown_members,
};

#[tactic(auto, unfolding(crate::specs::Lines::unjudged_line))]
fn put_line(out: &mut Out, count: usize, kind: i64) -> Result<(), NoMemory>
    ensures { OnOk result (out.new ≡ out.old ++ unjudged_line count kind) }
{
    out.put(b"unjudged")?;
    put_number(out, count as u64)?;
    put_type_word(out, kind)?;
    out.put(b"\n")
}

/// The form of an entity; 0 where the number names none.
pub fn form_of(file: &File, no: EntryNo) -> i64
    ensures { result ≡ form_of file.now no }
{
    match file.entry(no) {
        Some(entry) => entry.form,
        None => 0,
    }
}

fn put_faces_of(out: &mut Out, values: &Values) -> Result<(), NoMemory>
    ensures { OnOk result (out.new ≡ out.old ++ space_word (faces_word values.now)) }
{
    match shell_of(values) {
        Some(faces) => put_number(out, faces.len() as u64),
        None => put_word(out, "-"),
    }
}

// How many faces a shell names.
fn put_faces(out: &mut Out, file: &File, no: EntryNo) -> Result<(), NoMemory>
    ensures { OnOk result (out.new ≡ out.old ++ space_word (faces_word (values_of file.now (pos no.0)))) }
{
    match file.values(no) {
        Some(values) => put_faces_of(out, values),
        None => put_word(out, "-"),
    }
}

#[tactic(auto, unfolding(crate::specs::Lines::shell_fact))]
fn put_shell(out: &mut Out, file: &File, no: EntryNo) -> Result<(), NoMemory>
    ensures { OnOk result (out.new ≡ out.old ++ shell_fact file.now no) }
{
    out.put(b"  shell")?;
    put_number(out, u64::from(no.0))?;
    out.put(b" form")?;
    put_signed(out, form_of(file, no))?;
    out.put(b" faces")?;
    put_faces(out, file, no)?;
    out.put(b"\n")
}

#[tactic(auto, unfolding(crate::specs::Lines::face_fact))]
fn put_face(out: &mut Out, no: EntryNo) -> Result<(), NoMemory>
    ensures { OnOk result (out.new ≡ out.old ++ face_fact no) }
{
    out.put(b"  face")?;
    put_number(out, u64::from(no.0))?;
    out.put(b"\n")
}

fn put_member(out: &mut Out, member: Member, file: &File, no: EntryNo) -> Result<(), NoMemory>
    ensures { OnOk result (out.new ≡ out.old ++ member_fact member file.now no) }
{
    match member {
        Member::Shell => put_shell(out, file, no),
        Member::Face => put_face(out, no),
    }
}

fn put_each(out: &mut Out, member: Member, file: &File, list: &[EntryNo]) -> Result<(), NoMemory>
    ensures { OnOk result (out.new ≡ out.old ++ flat_map (member_fact member file.now) list.now) }
{
    'members: for no in list {
        put_member(out, member, file, *no)?;
    }
    Ok(())
}

#[tactic(auto, unfolding(crate::specs::Lines::member_facts))]
fn put_facts(out: &mut Out, member: Member, file: &File, list: &[EntryNo]) -> Result<(), NoMemory>
    ensures { OnOk result (out.new ≡ out.old ++ member_facts member file.now list.now) }
{
    let shown = shown_members(Listing::Few, list);
    put_each(out, member, file, shown)?;
    put_more_facts(out, list.len() - shown.len())
}

/// Appends how many there are of these members, and which: the first 20, and how many more. Nothing where there are none.
pub fn put_members(
    out: &mut Out,
    member: Member,
    file: &File,
    list: &EntryNumbers,
) -> Result<(), NoMemory>
    ensures { OnOk result (out.new ≡ out.old ++ member_lines member file.now list.now) }
{
    if list.len() == 0 {
        return Ok(());
    }
    put_line(out, list.len(), type_of_members(member))?;
    put_facts(out, member, file, list.as_slice())
}

fn put_count(out: &mut Out, count: usize, kind: u16) -> Result<(), NoMemory>
    ensures { OnOk result (out.new ≡ out.old ++ line_of_count count kind) }
{
    if count == 0 {
        return Ok(());
    }
    put_line(out, count, i64::from(kind))
}

/// Appends how many entities there are of each of these types, where there are any.
pub fn put_types(out: &mut Out, counts: &[usize], types: &[u16]) -> Result<(), NoMemory>
    requires len { length counts.now ≡ 431 }
    requires types { IsTrue (are_counted types.now) }
    ensures { (f : Contents) → AreTypeCounts f counts.now
        → OnOk result (out.new ≡ out.old ++ flat_map (type_line f) types.now) }
{
    'types: for i in 0..types.len() {
        put_count(out, count_of(counts, types[i]), types[i])?;
    }
    Ok(())
}
