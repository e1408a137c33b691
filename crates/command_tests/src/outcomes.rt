//! Runs in which one call fails.

use crate::memory::{sink, source, status_of, words};
use iges_base::Bytes;
use iges_io::{MemSink, MemSource};
use iges_solid_cmd::Words;
use std::alloc::Global;
use std::test::Fail;

/// What a run is given: its words, and the file and the certificate where the words read one.
#[derive(Clone, Copy)]
pub struct Given<'a> {
    pub words: &'a [&'a str],
    pub file: Option<&'a [u8]>,
    pub certificate: Option<&'a [u8]>,
}

/// A kind of call that may fail.
#[derive(Clone, Copy)]
pub enum Call {
    FileRead,
    CertificateRead,
    Write,
}

/// Which call of a kind fails, from 1, where each of them moves at most `size` bytes.
#[derive(Clone, Copy)]
pub struct Fails {
    pub call: Call,
    pub size: u64,
    pub at: u64,
}

/// More than any text here is long.
const ROOM: usize = 4_096;

// How many bytes a call of this kind moves at most, and which one fails, from 1; 0 is none.
fn bounds(call: Call, fails: Option<Fails>) -> (u64, u64) {
    match fails {
        Some(fails) if fails.call == call => (fails.size, fails.at),
        _ => (ROOM as u64, 0),
    }
}

fn source_of(alloc: Global, text: Option<&[u8]>, bounds: (u64, u64)) -> Result<MemSource, Fail> {
    source(alloc, text.unwrap_or(b""), &[bounds.0], &[bounds.1])
}

fn sink_of(alloc: Global, bounds: (u64, u64)) -> Result<MemSink, Fail> {
    sink(alloc, ROOM, &[bounds.0], &[bounds.1])
}

// The status of a run into a sink of these bounds, and what it wrote.
fn outcome_in(
    alloc: Global,
    words: &Words,
    file: &mut MemSource,
    cert: &mut MemSource,
    bounds: (u64, u64),
) -> Result<(u8, Bytes), Fail> {
    let mut out = sink_of(alloc, bounds)?;
    let status = status_of(alloc, words, file, cert, &mut out);
    let text = Bytes::copy(alloc, out.bytes());
    drop(out);
    Ok((status, text?))
}

// The status of a run over this file and a certificate, and what it wrote.
fn outcome_over(
    alloc: Global,
    words: &Words,
    file: &mut MemSource,
    certificate: Option<&[u8]>,
    fails: Option<Fails>,
) -> Result<(u8, Bytes), Fail> {
    let mut cert = source_of(alloc, certificate, bounds(Call::CertificateRead, fails))?;
    let got = outcome_in(alloc, words, file, &mut cert, bounds(Call::Write, fails));
    drop(cert);
    got
}

// The status of a run of these words, and what it wrote.
fn outcome_of(
    alloc: Global,
    words: &Words,
    given: Given,
    fails: Option<Fails>,
) -> Result<(u8, Bytes), Fail> {
    let mut file = source_of(alloc, given.file, bounds(Call::FileRead, fails))?;
    let got = outcome_over(alloc, words, &mut file, given.certificate, fails);
    drop(file);
    got
}

/// The status of a run, and what it wrote. Calls of another kind than the one that fails move all bytes at once.
pub fn outcome(alloc: Global, given: Given, fails: Option<Fails>) -> Result<(u8, Bytes), Fail> {
    let words = words(alloc, given.words)?;
    let got = outcome_of(alloc, &words, given, fails);
    drop(words);
    got
}
