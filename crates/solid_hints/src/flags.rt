//! The hint on face flags.

ghost use Rattle.solid_data.specs.declared.TheConstants.{PART_LIMIT};
ghost use Rattle.solid_data.specs.declared.solid.FaceUse.{FaceUse as AnyFace};
ghost use Rattle.solid_data.specs.declared.solid.Shell.{Shell as AnyShell};
ghost use Rattle.solid_faults.specs.FaceFlags.{IsClosedFlagged};
ghost use Rattle.solid_hints.specs.Flags.{flags_hint, flags_sentence, has_unpaired, pair_fails, unset_flags};
ghost use Rattle.std.specs.Prelude.{◌≡◌, ◌++◌, ◌<◌, ◌↔◌, IfOk, IfSome, IsTrue, OnOk, count_by, length, not, option_copied, slice_get};

use crate::shell_faults::{AllFaults, shell_at};
use iges_base::{NoMemory, Out};
use solid_data::{FaceUse, Solid};
use solid_faults::{ShellFaults, is_closed_flagged};
use std::alloc::Global;
use where_text::put_number;

const FLAGS: &str =
    "  With every face flag read as 1 this solid is closed. If its writer lets a\n  face's flag speak of the surface alone, as Parasolid's translator does, the\n  part is sound; if not, the faces with flag 0 may be turned. The receiver may\n  turn them inside out: check their normals there, or send STEP. igesolid\n  reorient FILE N writes the solid with flags that fit, not always all 1, or\n  says why it can't.\n";

// How many of the faces have the flag 0.
fn unset_in(faces: &[FaceUse]) -> usize
    ensures { result ≡ count_by (λ (face : AnyFace). not face.flag) faces.now }
{
    let mut count = 0;
    'faces: for i in 0..faces.len() {
        if !faces[i].flag {
            count += 1;
        }
    }
    count
}

// How many faces of a shell have the flag 0; shells count from 0.
fn unset_at(solid: &Solid, k: usize) -> usize
    requires shell { k < length solid.now.shells }
    requires few { k < PART_LIMIT }
    ensures { IfSome (slice_get solid.now.shells k)
        (λ (h : AnyShell). result ≡ count_by (λ (face : AnyFace). not face.flag) h.faces) }
{
    unset_in(shell_at(solid, k).faces.as_slice())
}

/// How many faces of a solid have the flag 0.
#[tactic(auto, unfolding(crate::specs::Flags::unset_flags))]
pub fn unset_flags(solid: &Solid) -> usize
    ensures { result ≡ unset_flags solid.now }
{
    let mut count = 0;
    'shells: for k in 0..solid.shell_count() {
        count += unset_at(solid, k);
    }
    count
}

fn has_unpaired(faults: Option<&ShellFaults>) -> bool
    ensures { result ≡ has_unpaired (option_copied faults.entry) }
{
    match faults {
        Some(faults) => !faults.unpaired().is_empty(),
        None => false,
    }
}

/// Whether an edge isn't paired in one of these shells.
pub fn pair_fails(all: &AllFaults, shells: &[u32]) -> bool
    ensures { result ≡ pair_fails all.now shells.now }
{
    'shells: for k in shells {
        if has_unpaired(all.get(*k as usize)) {
            return true;
        }
    }
    false
}

/// Whether the hint on face flags is given, where an edge of a shell isn't paired or not, and so many faces have the flag 0. It
/// copies the solid.
pub fn tells_flags(
    alloc: Global,
    solid: &Solid,
    unpaired: bool,
    unset: usize,
) -> Result<bool, NoMemory>
    ensures { IfOk result (λ b. IsTrue b ↔ (IsTrue unpaired × (0 < unset)
        × IsClosedFlagged solid.now)) }
{
    if !unpaired || unset == 0 {
        return Ok(false);
    }
    is_closed_flagged(alloc, solid)
}

#[tactic(auto, unfolding(crate::specs::Flags::flags_sentence))]
fn put_flags_sentence(out: &mut Out) -> Result<(), NoMemory>
    ensures { OnOk result (out.new ≡ out.old ++ flags_sentence) }
{
    out.put(FLAGS.as_bytes())
}

/// Appends the hint on face flags, of which so many are 0.
#[tactic(auto, unfolding(crate::specs::Flags::flags_hint))]
pub fn put_flags(out: &mut Out, unset: usize) -> Result<(), NoMemory>
    ensures { OnOk result (out.new ≡ out.old ++ flags_hint unset) }
{
    out.put(b"hint face-flags faces")?;
    put_number(out, unset as u64)?;
    out.put(b"\n")?;
    put_flags_sentence(out)
}
