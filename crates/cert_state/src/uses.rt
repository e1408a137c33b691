//! How many uses the loops of a solid have.

ghost use Rattle.std.specs.Prelude.{◌≡◌, ◌+◌, ◌*◌, ◌<◌, ◌^◌, length, flat_map};
ghost use Rattle.solid_data.specs.SolidData.{shell_uses};
ghost use Rattle.cert_lines.specs.Line.{line_limit};
ghost use Rattle.std.specs.Prelude.{Some, sum_by};
ghost use Rattle.solid_data.specs.declared.solid.FaceUse.{FaceUse as Face};
ghost use Rattle.cert_state.specs.Progress.{loops_of};
ghost use Rattle.cert_state.specs.Uses.{loops_size, faces_size};
ghost use Rattle.solid_data.specs.declared.TheConstants.{PART_LIMIT};

use solid_data::{FaceUse, Shell, ShellAt, Solid};

// How many uses the loops of a face have.
fn uses_of_face(face: &FaceUse) -> usize
    requires { loops_size face.now.loops < PART_LIMIT }
    ensures { result ≡ loops_size face.now.loops }
{
    let mut count = 0;
    let loops = face.loops.as_slice();
    'loops: for i in 0..loops.len() {
        count += loops[i].uses.len();
    }
    count
}

// How many uses the loops of a shell have.
fn uses_of_shell(shell: &Shell) -> usize
    requires { faces_size shell.now.faces < PART_LIMIT }
    ensures { result ≡ faces_size shell.now.faces }
{
    let mut count = 0;
    let faces = shell.faces.as_slice();
    'faces: for i in 0..faces.len() {
        count += uses_of_face(&faces[i]);
    }
    count
}

/// How many uses the loops of a solid have.
pub fn use_count(solid: &Solid) -> usize
    ensures { result ≡ length (flat_map shell_uses solid.now.shells) }
{
    let mut count = 0;
    'shells: for k in 0..solid.shell_count() {
        count += uses_of_shell(solid.shell(ShellAt(k as u32)).unwrap());
    }
    count
}

/// The most bytes that a line after the first two may have, with its LF.
pub fn limit_of(solid: &Solid) -> usize
    ensures { result ≡ line_limit solid.now }
{
    solid.recall_numbering();
    64 + 10 * use_count(solid)
}

fn loops_in(faces: &[FaceUse]) -> u64
    requires { sum_by (λ (f : Face). length f.loops) faces.now < 2 ^ 64 }
    ensures { result ≡ sum_by (λ (f : Face). length f.loops) faces.now }
{
    let mut count = 0;
    'faces: for face in faces {
        count += face.loops.len() as u64;
    }
    count
}

/// How many loops a shell has.
pub fn loop_count(shell: &Shell) -> u64
    requires { loops_of (Some shell.now) < PART_LIMIT }
    ensures { result ≡ loops_of (Some shell.now) }
{
    loops_in(shell.faces.as_slice())
}
