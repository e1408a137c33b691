//! The places of a solid that name its shells, faces and loops.

ghost use Rattle.record_values.specs.Naming.{faces_in, first_naming, first_of, loops_in, names_in_face, names_in_shell, shells_in};
ghost use Rattle.std.specs.Prelude.{◌≡◌, ◌+◌, ◌<◌, ◌^◌, [], ◌∷◌, MatchOption};

use crate::named::values_named;
use brep_loops::{FaceRecord, ShellRecord, SolidRecord};
use iges_params::File;

/// A place that names a shell, a face or a loop.
#[derive(Clone, Copy)]
pub struct Naming {
    /// The solid, the shell or the face whose record names it.
    pub entity: i64,
    /// The item of that record, from 1.
    pub item: u64,
}

// The place of an item, counted from 0.
fn named_by(entity: i64, item: usize) -> Naming
    requires { item + 1 < 2 ^ 64 }
    ensures { result ≡ record { entity = entity; item = item + 1 } }
{
    Naming {
        entity,
        item: item as u64 + 1,
    }
}

// The record of a face, where it fits.
fn face_named(file: &File, face: i64) -> Option<FaceRecord<'_>>
    ensures { MatchOption result (loops_in file.now face ≡ [])
        (λ record_of. loops_in file.now face ≡ record_of.loops) }
{
    let Some(values) = values_named(file, face) else {
        return None;
    };
    FaceRecord::of(values)
}

// The record of a shell, where it fits.
fn shell_named(file: &File, shell: i64) -> Option<ShellRecord<'_>>
    ensures { MatchOption result (faces_in file.now shell ≡ [])
        (λ record_of. faces_in file.now shell ≡ record_of) }
{
    let Some(values) = values_named(file, shell) else {
        return None;
    };
    ShellRecord::of(values)
}

// The record of a solid, where it fits.
fn solid_named(file: &File, solid: i64) -> Option<SolidRecord<'_>>
    ensures { MatchOption result (shells_in file.now solid ≡ [])
        (λ record_of. shells_in file.now solid ≡ record_of.outer ∷ record_of.voids) }
{
    let Some(values) = values_named(file, solid) else {
        return None;
    };
    SolidRecord::of(values)
}

// The first item of a face that names the number.
fn first_in_face(file: &File, face: i64, number: i64) -> Option<Naming>
    ensures { result ≡ first_of number (names_in_face file.now face) }
{
    let Some(record) = face_named(file, face) else {
        return None;
    };
    'loops: for item in 0..record.len() {
        let named = record.item(item).unwrap();
        if named == number {
            return Some(named_by(face, item));
        }
    }
    None
}

// The first place in a shell that names the number.
fn first_in_shell(file: &File, shell: i64, number: i64) -> Option<Naming>
    ensures { result ≡ first_of number (names_in_shell file.now shell) }
{
    let Some(record) = shell_named(file, shell) else {
        return None;
    };
    'faces: for item in 0..record.len() {
        let (face, _) = record.item(item).unwrap();
        if face == number {
            return Some(named_by(shell, item));
        }
        if let Some(found) = first_in_face(file, face, number) {
            return Some(found);
        }
    }
    None
}

/// The first place of a solid that names the number as a shell, a face or a loop: depth first, each shell before its
/// faces, and each face before its loops. It stops there; a record that doesn't fit its type names nothing.
pub fn first_naming(file: &File, solid: i64, number: i64) -> Option<Naming>
    ensures { result ≡ first_naming file.now solid number }
{
    let Some(record) = solid_named(file, solid) else {
        return None;
    };
    'shells: for item in 0..record.len() {
        let (shell, _) = record.item(item).unwrap();
        if shell == number {
            return Some(named_by(solid, item));
        }
        if let Some(found) = first_in_shell(file, shell, number) {
            return Some(found);
        }
    }
    None
}
