//! How much one record names.

ghost use Rattle.brep_lists.specs.OwnValues.{is_record_of};
ghost use Rattle.brep_lists.specs.declared.entity_kind.EntityKind.TheVariants.{Solid as solid, Shell as shell, Face as face};
ghost use Rattle.brep_walk.specs.Places.{faces as faces_named, loops as loops_named, shells as shells_named};
ghost use Rattle.iges_params.specs.Named.{values_of};
ghost use Rattle.named_sizes.specs.Sizes.{AreSizes, capped, face_size as size_of_face, items_if, loop_size as size_of_loop, record_size as size_of_record, shell_size as size_of_shell, solid_size as size_of_solid};
ghost use Rattle.std.specs.List.{sum_by};
ghost use Rattle.std.specs.Prelude.{◌≡◌, ◌+◌, ◌<◌, ◌≤◌, Bool, ℤ, ℕ, ◌∷◌, [], IfSome, MatchOption};

use crate::{ENTRY, MOST};
use brep_loops::{FaceRecord, ShellRecord, SolidRecord};
use iges_base::ItemList;
use iges_fields::Values;
use iges_params::File;

/// At the place of each number the size of its entry.
pub type Sizes = ItemList<u64>;

// The sum of two sizes.
#[tactic(auto, unfolding(crate::specs::Sizes::capped))]
fn add(a: u64, b: u64) -> u64
    requires first { a ≤ MOST }
    requires second { b ≤ MOST }
    ensures within { result ≤ MOST }
    ensures is { (m n : ℕ) → a ≡ capped m → b ≡ capped n → result ≡ capped (m + n) }
{
    (a + b).min(MOST)
}

fn values_at(file: &File, z: i64) -> Option<&Values>
    ensures { MatchOption result (values_of file.now z ≡ []) (λ vs. values_of file.now z ≡ vs.now) }
{
    let no = file.entry_no_of(z)?;
    file.values(no)
}

// The size of a record of so many values.
#[tactic(auto, unfolding(crate::specs::Sizes::capped))]
fn record_size(len: usize) -> u64
    ensures within { result ≤ MOST }
    ensures is { result ≡ capped (size_of_record len) }
{
    if len == 0 {
        return 0;
    }
    (len as u64).min(MOST - ENTRY) + ENTRY
}

#[tactic(auto, unfolding(crate::specs::Sizes::capped, crate::specs::Sizes::loop_size))]
fn loop_size(file: &File, z: i64) -> u64
    ensures within { result ≤ MOST }
    ensures is { result ≡ capped (size_of_loop file.now z) }
{
    match values_at(file, z) {
        Some(values) => record_size(values.len()),
        None => 0,
    }
}

fn loops_size(file: &File, record: &FaceRecord<'_>) -> u64
    ensures within { result ≤ MOST }
    ensures is { result ≡ capped (sum_by (size_of_loop file.now) record.now.loops) }
{
    let mut total = 0;
    'loops: for i in 0..record.len() {
        let item = record.item(i).unwrap();
        total = add(total, loop_size(file, item));
    }
    total
}

/// The size of the loops of a face.
pub fn face_size(file: &File, z: i64) -> u64
    ensures within { result ≤ MOST }
    ensures is { result ≡ capped (size_of_face file.now z) }
{
    let Some(values) = values_at(file, z) else {
        return 0;
    };
    match FaceRecord::of(values) {
        Some(record) => loops_size(file, &record),
        None => 0,
    }
}

// The size at the place of a number.
fn size_in(sizes: &Sizes, z: i64) -> Option<u64>
    ensures { (size : ℤ → ℕ) → AreSizes size sizes.now → IfSome result (λ x. x ≡ capped (size z)) }
{
    let Ok(n) = usize::try_from(z) else {
        return None;
    };
    sizes.get(n).copied()
}

fn known_face(file: &File, faces: &Sizes, z: i64) -> u64
    requires { AreSizes (size_of_face file.now) faces.now }
    ensures within { result ≤ MOST }
    ensures is { result ≡ capped (size_of_face file.now z) }
{
    match size_in(faces, z) {
        Some(size) => size,
        None => face_size(file, z),
    }
}

fn faces_size(file: &File, faces: &Sizes, record: &ShellRecord<'_>) -> u64
    requires { AreSizes (size_of_face file.now) faces.now }
    ensures within { result ≤ MOST }
    ensures is { result ≡ capped (sum_by (λ (t : ℤ × Bool). size_of_face file.now t.0) record.now) }
{
    let mut total = 0;
    'faces: for i in 0..record.len() {
        let item = record.item(i).unwrap();
        total = add(total, known_face(file, faces, item.0));
    }
    total
}

/// The size of the loops of a shell's faces, where the sizes of all faces are known.
pub fn shell_size(file: &File, faces: &Sizes, z: i64) -> u64
    requires { AreSizes (size_of_face file.now) faces.now }
    ensures within { result ≤ MOST }
    ensures is { result ≡ capped (size_of_shell file.now z) }
{
    let Some(values) = values_at(file, z) else {
        return 0;
    };
    match ShellRecord::of(values) {
        Some(record) => faces_size(file, faces, &record),
        None => 0,
    }
}

fn known_shell(file: &File, faces: &Sizes, shells: &Sizes, z: i64) -> u64
    requires faces { AreSizes (size_of_face file.now) faces.now }
    requires shells { AreSizes (size_of_shell file.now) shells.now }
    ensures within { result ≤ MOST }
    ensures is { result ≡ capped (size_of_shell file.now z) }
{
    match size_in(shells, z) {
        Some(size) => size,
        None => shell_size(file, faces, z),
    }
}

fn shells_size(file: &File, faces: &Sizes, shells: &Sizes, record: &SolidRecord<'_>) -> u64
    requires faces { AreSizes (size_of_face file.now) faces.now }
    requires shells { AreSizes (size_of_shell file.now) shells.now }
    ensures within { result ≤ MOST }
    ensures is { result ≡ capped (sum_by (λ (t : ℤ × Bool). size_of_shell file.now t.0) (record.now.outer ∷ record.now.voids)) }
{
    let mut total = 0;
    'shells: for i in 0..record.len() {
        let item = record.item(i).unwrap();
        total = add(total, known_shell(file, faces, shells, item.0));
    }
    total
}

/// The size of the loops of the faces of a solid's shells, where the sizes of all faces and shells are known.
pub fn solid_size(file: &File, faces: &Sizes, shells: &Sizes, z: i64) -> u64
    requires faces { AreSizes (size_of_face file.now) faces.now }
    requires shells { AreSizes (size_of_shell file.now) shells.now }
    ensures within { result ≤ MOST }
    ensures is { result ≡ capped (size_of_solid file.now z) }
{
    let Some(values) = values_at(file, z) else {
        return 0;
    };
    match SolidRecord::of(values) {
        Some(record) => shells_size(file, faces, shells, &record),
        None => 0,
    }
}
