//! The steps of faces.

ghost use Rattle.std.specs.Prelude.{◌≡◌, ◌++◌, ◌∷◌, [], OnOk, flat_map};
ghost use Rattle.remedy_text.specs.Viewed.{face_item, face_steps, removed as are_removed, shown, step_text, turned as are_turned};

use crate::sentences::Step;
use crate::told::{faces_of, removed, turned};
use crate::view::RemedyView;
use crate::words::{put_face, put_step_head};
use iges_base::{EntryNo, NoMemory, Out};
use shell_change::Change;
use std::alloc::Global;
use where_text::{EntryNumbers, put_more_items, shown_members};

#[tactic(auto, unfolding(crate::specs::Lines::face_item))]
fn put_face_item(
    out: &mut Out,
    named: &mut EntryNumbers,
    view: &RemedyView<'_>,
    word: &str,
    face: EntryNo,
) -> Result<(), NoMemory>
    ensures text { OnOk result (out.new ≡ out.old ++ face_item word.now view.now face) }
    ensures named { OnOk result (named.new ≡ named.old ++ face ∷ []) }
{
    out.put(word.as_bytes())?;
    put_face(out, named, view, face)?;
    out.put(b"\n")
}

fn put_face_items(
    out: &mut Out,
    named: &mut EntryNumbers,
    view: &RemedyView<'_>,
    word: &str,
    faces: &[EntryNo],
) -> Result<(), NoMemory>
    ensures text { OnOk result (out.new
        ≡ out.old ++ flat_map (face_item word.now view.now) faces.now) }
    ensures named { OnOk result (named.new ≡ named.old ++ faces.now) }
{
    'faces: for i in 0..faces.len() {
        put_face_item(out, named, view, word, faces[i])?;
    }
    Ok(())
}

// A step of faces.
fn put_faces(
    out: &mut Out,
    named: &mut EntryNumbers,
    view: &RemedyView<'_>,
    step: Step,
    word: &str,
    faces: &[EntryNo],
) -> Result<(), NoMemory>
    ensures text { OnOk result (out.new ≡ out.old
        ++ step_text step view.now (face_item word.now view.now) faces.now) }
    ensures named { OnOk result (named.new ≡ named.old ++ shown view.now faces.now) }
{
    put_step_head(out, step, faces.len())?;
    put_face_items(out, named, view, word, shown_members(view.listing, faces))?;
    put_more_items(out, faces.len() - view.listing.count(faces.len()))
}

/// The steps of the faces of a shell that is changed.
pub(crate) fn put_face_steps(
    alloc: Global,
    out: &mut Out,
    named: &mut EntryNumbers,
    view: &RemedyView<'_>,
    change: &Change,
) -> Result<(), NoMemory>
    ensures text { OnOk result (out.new ≡ out.old ++ face_steps view.now change.now) }
    ensures named { OnOk result (named.new ≡ named.old
        ++ shown view.now (are_removed view.now change.now)
        ++ shown view.now (are_turned view.now change.now)) }
{
    let faces = faces_of(view.solid, change.shell);
    let removed = removed(alloc, faces, &change.faces)?;
    let turned = turned(alloc, faces, &change.faces)?;
    put_faces(out, named, view, Step::Remove, "remove", removed.as_slice())?;
    put_faces(out, named, view, Step::Turn, "turn", turned.as_slice())
}
