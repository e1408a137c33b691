//! The file of a sample.

ghost use Rattle.iges_directory.specs.Bounds.{IsBounded};
ghost use Rattle.iges_base.specs.declared.TheConstants.{ENTRY_LIMIT, FILE_LIMIT};
ghost use Rattle.iges_params.specs.Contents.{value_count};
ghost use Rattle.std.specs.Prelude.{◌≡◌, ◌∷◌, ◌++◌, [], ◌+◌, ◌*◌, ◌<◌, ◌≤◌, IfOk, OnOk, length};
ghost use Rattle.sample_solids.specs.Sample.{plain, sample, no_values, start_line};
ghost use Rattle.sample_solids.specs.Stages.{stage};

use crate::values::{
    edge_values, face_values, loop_values, shell_values, values_of, vertex_values,
};
use iges_base::NoMemory;
use iges_directory::Entry;
use iges_fields::{Delimiters, Values};
use iges_params::{File, Global26};
use std::alloc::Global;

/// The one line of the start section.
const START: &[u8; 72] =
    b"sample                                                                  ";

/// An entry of this type and form; its other fields have no value but the status number, all zeros.
fn plain(kind: u32, form: u32) -> Entry
    requires kind { kind < 1000 }
    requires form { form < 1000 }
    ensures is { result ≡ plain kind form }
    ensures bounded { IsBounded result }
{
    Entry {
        kind: kind as i64,
        structure: 0,
        font: 0,
        level: 0,
        view: 0,
        matrix: 0,
        display: 0,
        weight: 0,
        colour: 0,
        form: form as i64,
        subscript: 0,
        status: *b"00000000",
        label: *b"        ",
    }
}

/// A file with the start line, a global of the usual delimiters, and no entries.
fn started(alloc: Global) -> Result<File, NoMemory>
    ensures { IfOk result (λ f. f ≡ record {
      start = start_line
          ∷ [];
      global = no_values;
      entries = [];
    }) }
{
    let global = Global26 {
        delims: Delimiters::new(b',', b';').unwrap(),
        values: Values::new(alloc),
    };
    File::new(alloc, START, global)
}

/// Puts an entry of this type and form at the end.
fn put(file: &mut File, kind: u32, form: u32, values: Values) -> Result<(), NoMemory>
    requires used { 0 < kind }
    requires kind { kind < 1000 }
    requires form { form < 1000 }
    requires entries { length file.old.entries < ENTRY_LIMIT }
    requires few { value_count file.old.entries + length values ≤ FILE_LIMIT }
    ensures { OnOk result (file.new ≡ record file.old {
      entries = file.old.entries
          ++ (plain kind form, values) ∷ [];
    }) }
{
    file.push(plain(kind, form), values)
}

/// The file with its first entries: the solid, its shell, the vertices and the edges, a line and a plane.
fn first_entries(alloc: Global, n: u32) -> Result<File, NoMemory>
    requires some { 0 < n }
    requires few { n ≤ 200 }
    ensures { IfOk result (λ f. f ≡ stage n 0) }
{
    let mut file = started(alloc)?;
    put(&mut file, 186, 0, values_of(alloc, &[3, 1, 0])?)?;
    put(&mut file, 514, 1, shell_values(alloc, n)?)?;
    put(&mut file, 502, 1, vertex_values(alloc, n)?)?;
    put(&mut file, 504, 1, edge_values(alloc, n)?)?;
    put(&mut file, 110, 0, values_of(alloc, &[0, 0, 0, 1, 0, 0])?)?;
    put(
        &mut file,
        108,
        0,
        values_of(alloc, &[0, 0, 1, 0, 0, 0, 0, 0, 0])?,
    )?;
    Ok(file)
}

/// Puts the face of the k-th square, from 0, and its loop.
fn put_square(alloc: Global, file: &mut File, n: u32, k: u32) -> Result<(), NoMemory>
    requires some { 0 < n }
    requires few { n ≤ 200 }
    requires within { k < n * n }
    requires stage { file.old ≡ stage n k }
    ensures { OnOk result (file.new ≡ stage n (k + 1)) }
{
    let i = k / n;
    let j = k % n;
    put(file, 510, 1, face_values(alloc, n, i, j)?)?;
    put(file, 508, 1, loop_values(alloc, n, i, j)?)
}

/// The sample of n, from 3 to 200: a file whose solid, entry 1, is a mesh of n times n squares that closes to a torus,
/// with 2 n n edges and n n vertices. All its values are integers. It errs only where memory runs out.
pub fn sample_file(alloc: Global, n: u32) -> Result<File, NoMemory>
    requires low { 3 ≤ n }
    requires high { n ≤ 200 }
    ensures found { IfOk result (λ f. f ≡ sample n) }
{
    let mut file = first_entries(alloc, n)?;
    'squares: for k in 0..n * n {
        put_square(alloc, &mut file, n, k)?;
    }
    Ok(file)
}
