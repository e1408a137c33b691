//! How many entities of each type there are.

ghost use Rattle.iges_params.specs.Contents.{Contents};
ghost use Rattle.iges_params.specs.Named.{kind_of};
ghost use Rattle.std.specs.Ordering.{int_eq};
ghost use Rattle.std.specs.Prelude.{◌≡◌, ◌+◌, ◌<◌, ◌^◌, ◌==◌, ℕ, Some, IfOk, IsTrue, get_or, if◌then◌else◌, length, option_map, pos, slice_get, vec_len};
ghost use Rattle.where_unjudged.specs.Counts.{AreTypeCounts, count_of_type};

use iges_base::NoMemory;
use iges_params::File;
use std::alloc::Global;

/// How many types are counted: those up to the greatest that is told of.
const TYPES: usize = 431;

fn zeros(alloc: Global, len: usize) -> Result<Vec<usize>, NoMemory>
    ensures len { IfOk result (λ counts. vec_len counts ≡ len) }
    ensures zero { IfOk result (λ counts. (t : ℕ) → t < len → get_or counts.items t 0 ≡ 0) }
{
    Ok(vec![in alloc; 0usize; len]?)
}

// Adds 1 at a place, where it is one.
fn count_at(counts: &mut [usize], place: usize)
    requires { (t : ℕ) → t < length counts.old → get_or counts.old t 0 < 2 ^ 60 }
    ensures { (t : ℕ) → t < length counts.old
        → get_or counts.new t 0 ≡ get_or counts.old t 0 + (if place == t then 1 else 0) }
{
    if place < counts.len() {
        counts[place] += 1;
    }
}

// Counts an entity of a type.
fn count(counts: &mut [usize], kind: i64)
    requires { (t : ℕ) → t < length counts.old → get_or counts.old t 0 < 2 ^ 60 }
    ensures { (t : ℕ) → t < length counts.old
        → get_or counts.new t 0 ≡ get_or counts.old t 0 + (if int_eq kind (pos t) then 1 else 0) }
{
    match usize::try_from(kind) {
        Ok(place) => count_at(counts, place),
        Err(_) => {}
    }
}

// The type of the i-th entry, from 0.
fn kind_at(file: &File, i: usize) -> i64
    requires { i < length file.now.entries }
    ensures { option_map kind_of (slice_get file.now.entries i) ≡ Some result }
{
    file.entry_at(i).unwrap().kind
}

// Counts the entities of a file, at the places of their types.
fn count_all(counts: &mut [usize], file: &File)
    requires { (t : ℕ) → t < length counts.old → get_or counts.old t 0 ≡ 0 }
    ensures { (t : ℕ) → t < length counts.old → get_or counts.new t 0 ≡ count_of_type file.now t }
{
    'entries: for i in 0..file.entry_count() {
        count(counts, kind_at(file, i));
    }
}

/// How many entities there are of each type up to 430.
pub fn type_counts(alloc: Global, file: &File) -> Result<Vec<usize>, NoMemory>
    ensures { IfOk result (λ counts. AreTypeCounts file.now counts.items) }
{
    let mut counts = zeros(alloc, TYPES)?;
    count_all(&mut counts, file);
    Ok(counts)
}

/// How many entities of a type there are.
pub fn count_of(counts: &[usize], kind: u16) -> usize
    requires len { length counts.now ≡ 431 }
    requires counted { kind < 431 }
    ensures { (f : Contents) → AreTypeCounts f counts.now → result ≡ count_of_type f kind }
{
    counts[usize::from(kind)]
}
