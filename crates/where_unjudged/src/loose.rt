//! The shells that no solid names, and the faces that no shell names.

ghost use Rattle.iges_params.specs.Named.{named};
ghost use Rattle.std.specs.List.{list_any};
ghost use Rattle.std.specs.Prelude.{◌≡◌, ◌<◌, ◌||◌, ◌&&◌, ◌++◌, ◌∷◌, [], ℕ, false, pos, length, vec_len, IfOk, OnOk, get_or, if◌then◌else◌, not};
ghost use Rattle.where_unjudged.specs.Loose.{is_member, is_named, is_owner, loose, members_of, number_at};
ghost use Rattle.where_unjudged.specs.Named.{is_at, names_members, type_of_members};

use crate::marking::mark_members;
use crate::member::Member;
use brep_lists::EntityKind;
use iges_base::{EntryNo, ItemList, NoMemory};
use iges_params::File;
use std::alloc::Global;
use where_text::EntryNumbers;

/// The type of such members (IGES 5.3, 4.148 and 4.149).
pub fn type_of_members(member: Member) -> i64
    ensures { result ≡ type_of_members member }
{
    match member {
        Member::Shell => EntityKind::Shell.type_number(),
        Member::Face => EntityKind::Face.type_number(),
    }
}

fn names_members(member: Member, kind: i64, form: i64) -> bool
    ensures { result ≡ names_members member kind form }
{
    match member {
        Member::Shell => kind == EntityKind::Solid.type_number() && form == 0,
        Member::Face => kind == EntityKind::Shell.type_number(),
    }
}

fn is_owner(member: Member, file: &File, no: EntryNo) -> bool
    ensures { result ≡ is_owner member (named file.now (pos no.0)) }
{
    match file.entry(no) {
        Some(entry) => names_members(member, entry.kind, entry.form),
        None => false,
    }
}

fn is_member(member: Member, file: &File, no: EntryNo) -> bool
    ensures { result ≡ is_member member (named file.now (pos no.0)) }
{
    match file.entry(no) {
        Some(entry) => entry.kind == type_of_members(member),
        None => false,
    }
}

// Marks the members that an entity names.
#[tactic(auto, unfolding(crate::specs::Loose::members_of))]
fn mark_members_of(marks: &mut [bool], member: Member, file: &File, no: EntryNo)
    ensures { (k : ℕ) → k < length marks.old → get_or marks.new k false
        ≡ (get_or marks.old k false || list_any (is_at k) (members_of member file.now no)) }
{
    if !is_owner(member, file, no) {
        return;
    }
    if let Some(values) = file.values(no) {
        mark_members(marks, member, values);
    }
}

// Marks the members that the entities of a file name.
fn mark_all(marks: &mut [bool], member: Member, file: &File)
    ensures { (k : ℕ) → k < length marks.old → get_or marks.new k false
        ≡ (get_or marks.old k false || is_named member file.now k) }
{
    let count = file.entry_count();
    'entries: for i in 0..count {
        mark_members_of(marks, member, file, file.entry_no(i));
    }
}

// Which entries, by place, an entity of the file names as such members.
fn named_marks(alloc: Global, member: Member, file: &File) -> Result<Vec<bool>, NoMemory>
    ensures len { IfOk result (λ marks. vec_len marks ≡ length file.now.entries) }
    ensures marks { IfOk result (λ marks. (k : ℕ) → k < length file.now.entries
        → get_or marks.items k false ≡ is_named member file.now k) }
{
    let mut marks = vec![in alloc; false; file.entry_count()]?;
    mark_all(&mut marks, member, file);
    Ok(marks)
}

// Whether an entity is a member that isn't named.
fn is_loose(member: Member, file: &File, no: EntryNo, marked: bool) -> bool
    ensures { result ≡ (is_member member (named file.now (pos no.0)) && not marked) }
{
    !marked && is_member(member, file, no)
}

fn push_if(list: &mut EntryNumbers, loose: bool, no: EntryNo) -> Result<(), NoMemory>
    ensures { OnOk result (list.new ≡ list.old ++ (if loose then no ∷ [] else [])) }
{
    if loose {
        return list.push(no);
    }
    Ok(())
}

/// The numbers of the entities of the type of such members that no entity names, in directory order.
#[tactic(auto, unfolding(crate::specs::Loose::loose))]
pub fn loose(alloc: Global, member: Member, file: &File) -> Result<EntryNumbers, NoMemory>
    ensures { IfOk result (λ list. list ≡ loose member file.now) }
{
    let count = file.entry_count();
    let marks = named_marks(alloc, member, file)?;
    let mut list = ItemList::new(alloc);
    'entries: for i in 0..count {
        let no = file.entry_no(i);
        push_if(&mut list, is_loose(member, file, no, marks[i]), no)?;
    }
    Ok(list)
}
