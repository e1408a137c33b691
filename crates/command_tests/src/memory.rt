//! Words, sources and sinks in memory, and runs over them.

use iges_base::Bytes;
use iges_io::{MemSink, MemSource, Numbers};
use iges_solid_cmd::{Words, run};
use std::alloc::Global;
use std::test::Fail;

pub fn words(alloc: Global, given: &[&str]) -> Result<Words, Fail> {
    let mut words = Words::new(alloc);
    for word in given {
        words.push(word)?;
    }
    Ok(words)
}

fn numbers(alloc: Global, given: &[u64]) -> Result<Numbers, Fail> {
    let mut list = Numbers::new(alloc);
    for n in given {
        list.push(*n)?;
    }
    Ok(list)
}

/// A source of these bytes, whose reads give so many of them, and which fails at these calls, from 1.
pub fn source(alloc: Global, text: &[u8], sizes: &[u64], fails: &[u64]) -> Result<MemSource, Fail> {
    let sizes = numbers(alloc, sizes)?;
    let fails = numbers(alloc, fails)?;
    Ok(MemSource::new(Bytes::copy(alloc, text)?, sizes, fails))
}

/// A sink with so much room, whose writes take so many bytes, and which fails at these calls, from 1.
pub fn sink(alloc: Global, room: usize, sizes: &[u64], fails: &[u64]) -> Result<MemSink, Fail> {
    let sizes = numbers(alloc, sizes)?;
    let fails = numbers(alloc, fails)?;
    Ok(MemSink::new(alloc, room, sizes, fails)?)
}

/// The status of a run. Has no clause, so that what follows a call carries none of those of `run`.
pub fn status_of(
    alloc: Global,
    words: &Words,
    file: &mut MemSource,
    cert: &mut MemSource,
    out: &mut MemSink,
) -> u8 {
    run(alloc, words, file, cert, out).code()
}
