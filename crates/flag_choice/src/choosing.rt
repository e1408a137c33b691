//! Which of the two lists of flags that fit a shell is chosen.

ghost use Rattle.orient_certificate.specs.Flags.{FlagsFit, face_flags};
ghost use Rattle.solid_data.specs.declared.solid.FaceUse.{FaceUse as AnyFace};
ghost use Rattle.flag_choice.specs.Choice.{all_set, change, changes, chosen, is_turned, reversed};
ghost use Rattle.std.specs.List.{list_all};
ghost use Rattle.std.specs.Prelude.{◌≡◌, ◌≤◌, ◌<◌, IfOk, length, map, not, slice_get};

use iges_base::NoMemory;
use orient_certificate::FlagList;
use solid_data::{FaceUse, ShellAt, Solid};
use std::alloc::Global;

// 1 where the flag changes, else 0.
fn change(own: bool, flag: bool) -> usize
    ensures is { result ≡ change own flag }
    ensures few { result ≤ 1 }
{
    if own == flag { 0 } else { 1 }
}

// How many of the faces' flags change.
fn changes(faces: &[FaceUse], flags: &[bool]) -> usize
    requires { length flags.now ≡ length faces.now }
    ensures is { result ≡ changes (map (λ (f : AnyFace). f.flag) faces.now) flags.now }
    ensures few { result ≤ length flags.now }
{
    let mut count = 0;
    'faces: for i in 0..flags.len() {
        count += change(faces[i].flag, flags[i]);
    }
    count
}

// How many of the faces' flags change where these are turned round.
fn changes_turned(faces: &[FaceUse], flags: &[bool]) -> usize
    requires { length flags.now ≡ length faces.now }
    ensures { result ≡ changes (map (λ (f : AnyFace). f.flag) faces.now) (reversed flags.now) }
{
    flags.len() - changes(faces, flags)
}

fn all_set(flags: &[bool]) -> bool
    ensures { result ≡ all_set flags.now }
{
    flags.iter().all(|flag| *flag)
}

fn all_clear(flags: &[bool]) -> bool
    ensures { result ≡ list_all not flags.now }
{
    flags.iter().all(|flag| !*flag)
}

fn none_set(flags: &[bool]) -> bool
    ensures { result ≡ all_set (reversed flags.now) }
{
    all_clear(flags)
}

// Whether the reverse is chosen.
#[tactic(auto, unfolding(crate::specs::Choice::is_turned))]
fn is_turned(faces: &[FaceUse], kept: &[bool]) -> bool
    requires { length kept.now ≡ length faces.now }
    ensures { result ≡ is_turned (map (λ (f : AnyFace). f.flag) faces.now) kept.now }
{
    let count = changes(faces, kept);
    let other = changes_turned(faces, kept);
    count != 0 && !all_set(kept) && (none_set(kept) || other < count)
}

fn reversed(alloc: Global, flags: &[bool]) -> Result<FlagList, NoMemory>
    ensures { IfOk result (λ list. list ≡ reversed flags.now) }
{
    let mut list = FlagList::new(alloc);
    'flags: for i in 0..flags.len() {
        list.push(!flags[i])?;
    }
    Ok(list)
}

// Of a list and its reverse the one that is chosen for faces.
#[tactic(auto, unfolding(crate::specs::Choice::chosen))]
fn chosen(alloc: Global, faces: &[FaceUse], kept: FlagList) -> Result<FlagList, NoMemory>
    requires { length kept ≡ length faces.now }
    ensures { IfOk result (λ x. x ≡ chosen (map (λ (f : AnyFace). f.flag) faces.now) kept) }
{
    if is_turned(faces, kept.as_slice()) {
        return reversed(alloc, kept.as_slice());
    }
    Ok(kept)
}

/// Of a list that fits a shell, in which the first face keeps its flag, and the reverse of this list the one that is
/// chosen.
pub(crate) fn chosen_for(
    alloc: Global,
    solid: &Solid,
    at: ShellAt,
    kept: FlagList,
) -> Result<FlagList, NoMemory>
    requires shell { at.0 < length solid.now.shells }
    requires fit { FlagsFit solid.now at.0 kept }
    ensures { IfOk result (λ x. x ≡ chosen (face_flags (slice_get solid.now.shells at.0)) kept) }
{
    let shell = solid.shell(at).unwrap();
    chosen(alloc, shell.faces.as_slice(), kept)
}
