//! All uses of the shells that were made.

ghost use Rattle.std.specs.Prelude.{◌≡◌, ◌++◌, ◌<◌, IsTrue, IfOk, flat_map};
ghost use Rattle.std.specs.List.{AllByRecursion};
ghost use Rattle.solid_data.specs.SolidData.{shell_uses};
ghost use Rattle.change_pieces.specs.Filled.{loop_uses, face_uses, IsFilledLoop, IsFilledFace, IsFilledShell};

use iges_base::NoMemory;
use shell_change::item_at;
use solid_data::{FaceUse, Loop, LoopUse, Shell};
use std::alloc::Global;

fn push_uses(out: &mut Vec<LoopUse>, uses: &[LoopUse]) -> Result<(), NoMemory>
    ensures { IfOk result (λ _. out.new.items ≡ out.old.items ++ uses.now) }
{
    out.extend_from_slice(uses)?;
    Ok(())
}

fn push_face(out: &mut Vec<LoopUse>, face: &FaceUse) -> Result<(), NoMemory>
    ensures { IfOk result (λ _. out.new.items ≡ out.old.items ++ face_uses face.now) }
{
    let loops = face.loops.as_slice();
    'loops: for i in 0..loops.len() {
        push_uses(out, loops[i].uses.as_slice())?;
    }
    Ok(())
}

fn push_shell(out: &mut Vec<LoopUse>, shell: &Shell) -> Result<(), NoMemory>
    ensures { IfOk result (λ _. out.new.items ≡ out.old.items ++ shell_uses shell.now) }
{
    let faces = shell.faces.as_slice();
    'faces: for i in 0..faces.len() {
        push_face(out, &faces[i])?;
    }
    Ok(())
}

/// All uses of some shells, in order.
pub(crate) fn uses_of(alloc: Global, shells: &[Shell]) -> Result<Vec<LoopUse>, NoMemory>
    ensures { IfOk result (λ uses. uses.items ≡ flat_map shell_uses shells.now) }
{
    let mut out = Vec::new(alloc);
    'shells: for i in 0..shells.len() {
        push_shell(&mut out, &shells[i])?;
    }
    Ok(out)
}

fn is_filled_loop(walk: &Loop) -> bool
    ensures { IsTrue result → IsFilledLoop walk.now }
{
    walk.uses.len() > 0
}

fn is_filled_face(face: &FaceUse) -> bool
    ensures { IsTrue result → IsFilledFace face.now }
{
    let loops = face.loops.as_slice();
    'loops: for i in 0..loops.len() {
        if !is_filled_loop(item_at(loops, i)) {
            return false;
        }
    }
    !loops.is_empty()
}

fn is_filled_shell(shell: &Shell) -> bool
    ensures { IsTrue result → IsFilledShell shell.now }
{
    let faces = shell.faces.as_slice();
    'faces: for i in 0..faces.len() {
        if !is_filled_face(item_at(faces, i)) {
            return false;
        }
    }
    !faces.is_empty()
}

/// Whether each shell has a face, each face a loop, and each loop a use.
pub(crate) fn are_filled(shells: &[Shell]) -> bool
    ensures { IsTrue result → AllByRecursion IsFilledShell shells.now }
{
    'shells: for i in 0..shells.len() {
        if !is_filled_shell(item_at(shells, i)) {
            return false;
        }
    }
    true
}
