//! What public calls that no program makes answer on the ball, or None where they give up.

use crate::files::ball;
use brep_walk::walk;
use edge_uses::first_shared;
use entry_references::references;
use iges_base::{Bytes, EntryNo, FILE_LIMIT, Out};
use iges_fields::{Spelling, Value, write_value};
use iges_params::{File, read_file};
use list_compact::compact;
use solid_data::{ShellAt, Solid};
use solid_extract::extract;
use std::alloc::Global;

fn file_of(alloc: Global, bytes: &[u8]) -> Option<File> {
    if bytes.len() as u64 > FILE_LIMIT {
        return None;
    }
    read_file(alloc, bytes).ok()
}

fn written(alloc: Global, value: &Value) -> Option<Bytes> {
    let mut out = Out::new(alloc);
    write_value(&mut out, value).ok()?;
    Some(out.into_bytes())
}

/// An integer as it is written.
pub fn written_integer(alloc: Global, n: i64) -> Option<Bytes> {
    written(alloc, &Value::Int(n))
}

/// The word of a real, spelled and written.
pub fn written_real(alloc: Global, word: &[u8]) -> Option<Bytes> {
    let spelling = Spelling::of(alloc, word).ok()?;
    written(alloc, &Value::Real(spelling))
}

fn references_in(alloc: Global, file: &File, no: EntryNo) -> Option<usize> {
    file.entry(no)?;
    Some(references(alloc, file, no).ok()?.len())
}

/// How many entries this one of the ball's file refers to.
pub fn reference_count(alloc: Global, no: EntryNo) -> Option<usize> {
    let file = file_of(alloc, ball())?;
    references_in(alloc, &file, no)
}

/// How many entries are extracted with the ball.
pub fn extracted_count(alloc: Global) -> Option<usize> {
    let file = file_of(alloc, ball())?;
    Some(extract(alloc, &file, EntryNo(1)).ok()?.entry_count())
}

/// How many entries the compacted file of the ball has.
pub fn compacted_count(alloc: Global) -> Option<usize> {
    let file = file_of(alloc, ball())?;
    Some(compact(alloc, &file, EntryNo(1)).ok()?.entry_count())
}

fn is_first_apart(alloc: Global, solid: &Solid) -> Option<bool> {
    if solid.shell_count() == 0 {
        return None;
    }
    let shared = first_shared(alloc, solid, ShellAt(0)).ok()?;
    Some(shared.is_none())
}

/// Whether the ball's first shell shares no vertex with one before it.
pub fn is_apart(alloc: Global) -> Option<bool> {
    let file = file_of(alloc, ball())?;
    let solid = walk(alloc, &file, EntryNo(1)).ok()?;
    is_first_apart(alloc, &solid)
}
