//! The hints on what isn't judged.

ghost use Rattle.iges_params.specs.Contents.{Contents};
ghost use Rattle.std.specs.List.{list_any};
ghost use Rattle.std.specs.Prelude.{◌≡◌, ◌++◌, IsTrue, OnOk, length};
ghost use Rattle.where_unjudged.specs.Counts.{AreTypeCounts, are_counted};
ghost use Rattle.where_unjudged.specs.Hints.{faces_hint, has_shell_form, has_some, hint_if, is_shell_form, loose_faces_hint, loose_shells_hint, other_solids_hint, shells_hint, trimmed_hint};

use crate::counting::count_of;
use crate::lines::form_of;
use iges_base::{EntryNo, NoMemory, Out};
use iges_params::File;
use where_text::EntryNumbers;

const LOOSE_SHELLS: &str =
    "hint loose-shells\n  No solid whose record fits names these shells, so nothing is said of them.\n  To judge one by itself, as an open or a closed one, run igesolid open with\n  its number. Shells of one face each are as a rule faces that were never\n  sewn.\n";

const LOOSE_FACES: &str =
    "hint loose-faces\n  No shell whose record fits names these faces, so nothing is said of them. If\n  they belong to a solid, sew them and write the file again.\n";

const TRIMMED: &str =
    "hint trimmed\n  Trimmed and bounded surfaces (144, 143) share no edges, so whether they\n  close can't be told from them. Sew them in the CAD system and write solids\n  (186, often called B-rep mode).\n";

const OTHER_SOLIDS: &str =
    "hint other-solids\n  Solids of these types are made of others: nothing is said of them.\n";

fn is_shell_form(form: i64) -> bool
    ensures { result ≡ is_shell_form form }
{
    form == 1 || form == 2
}

fn have_shell_form(file: &File, list: &[EntryNo]) -> bool
    ensures { result ≡ list_any (has_shell_form file.now) list.now }
{
    'shells: for no in list {
        if is_shell_form(form_of(file, *no)) {
            return true;
        }
    }
    false
}

/// Appends what can be done with these shells, where one has form 1 or 2.
#[tactic(auto, unfolding(crate::specs::Hints::loose_shells_hint))]
pub fn put_shells_hint(out: &mut Out, file: &File, list: &EntryNumbers) -> Result<(), NoMemory>
    ensures { OnOk result (out.new ≡ out.old ++ shells_hint file.now list.now) }
{
    if have_shell_form(file, list.as_slice()) {
        return out.put(LOOSE_SHELLS.as_bytes());
    }
    Ok(())
}

/// Appends what can be done with these faces, where there are any.
#[tactic(auto, unfolding(crate::specs::Hints::loose_faces_hint))]
pub fn put_faces_hint(out: &mut Out, list: &EntryNumbers) -> Result<(), NoMemory>
    ensures { OnOk result (out.new ≡ out.old ++ faces_hint list.now) }
{
    if list.len() == 0 {
        return Ok(());
    }
    out.put(LOOSE_FACES.as_bytes())
}

/// Whether there are entities of one of these types.
pub fn has_some(counts: &[usize], types: &[u16]) -> bool
    requires len { length counts.now ≡ 431 }
    requires types { IsTrue (are_counted types.now) }
    ensures { (f : Contents) → AreTypeCounts f counts.now → result ≡ has_some f types.now }
{
    'types: for i in 0..types.len() {
        if count_of(counts, types[i]) > 0 {
            return true;
        }
    }
    false
}

/// Appends what can be done with bounded and trimmed surfaces, where there are any.
#[tactic(auto, unfolding(crate::specs::Hints::trimmed_hint))]
pub fn put_trimmed_hint(out: &mut Out, applies: bool) -> Result<(), NoMemory>
    ensures { OnOk result (out.new ≡ out.old ++ hint_if applies trimmed_hint) }
{
    if applies {
        return out.put(TRIMMED.as_bytes());
    }
    Ok(())
}

/// Appends that nothing is said of solids of other types, where there are any.
#[tactic(auto, unfolding(crate::specs::Hints::other_solids_hint))]
pub fn put_other_solids_hint(out: &mut Out, applies: bool) -> Result<(), NoMemory>
    ensures { OnOk result (out.new ≡ out.old ++ hint_if applies other_solids_hint) }
{
    if applies {
        return out.put(OTHER_SOLIDS.as_bytes());
    }
    Ok(())
}
