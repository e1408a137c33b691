//! Tests of sources and sinks by themselves, in memory and of the system.

use crate::comparing::same;
use crate::memory::{sink, source};
use iges_io::{
    MemSink, ReadAll, Source, WriteFault, no_source, open_source, read_all, std_sink, write_all,
};
use std::alloc::Global;
use std::fs::File;
use std::process::Abort;
use std::test::Fail;
use std::{fs, io};

const TEXT: &[u8] = b"IGESCERT 1\n";

// Why the text is not had from this source, if it isn't.
fn fault_of<S: Source>(alloc: Global, source: &mut S, limit: u64) -> Option<ReadAll>
    requires { S.can_read source.old }
{
    match read_all(alloc, source, limit) {
        Ok(bytes) if bytes.as_slice() == TEXT => None,
        Ok(_) => Some(ReadAll::NoMemory),
        Err(fault) => Some(fault),
    }
}

// Why the text is not had from a source of these sizes that fails at these calls, if it isn't.
fn fault(alloc: Global, sizes: &[u64], fails: &[u64], limit: u64) -> Result<Option<ReadAll>, Fail> {
    let mut source = source(alloc, TEXT, sizes, fails)?;
    let fault = fault_of(alloc, &mut source, limit);
    drop(source);
    Ok(fault)
}

#[test]
fn the_limit_is_taken(rt: HostRuntime) -> Result<(), Fail> {
    same(&rt, &fault(rt.alloc(), &[7], &[], 11)?, &None);
    same(
        &rt,
        &fault(rt.alloc(), &[7], &[], 10)?,
        &Some(ReadAll::TooLarge),
    );
    Ok(())
}

#[test]
fn each_read_may_fail(rt: HostRuntime) -> Result<(), Fail> {
    for call in 1..=12 {
        same(
            &rt,
            &fault(rt.alloc(), &[1], &[call], 100)?,
            &Some(ReadAll::ReadFault),
        );
    }
    Ok(())
}

#[test]
fn nothing_is_read_behind_the_end_or_the_limit(rt: HostRuntime) -> Result<(), Fail> {
    same(&rt, &fault(rt.alloc(), &[1], &[13], 100)?, &None);
    same(
        &rt,
        &fault(rt.alloc(), &[1], &[5], 3)?,
        &Some(ReadAll::TooLarge),
    );
    Ok(())
}

// Writes the text twice into one sink, and gives how many bytes went out each time.
fn written(sink: &mut MemSink) -> (Option<WriteFault>, Option<WriteFault>) {
    let first = write_all(sink, TEXT).err();
    let second = write_all(sink, TEXT).err();
    (first, second)
}

// Writes the text twice into one sink, and compares how many bytes went out each time, and what it then holds.
fn writes_twice(
    rt: &impl Abort,
    sink: &mut MemSink,
    due: &(Option<WriteFault>, Option<WriteFault>),
    text: &[u8],
) {
    same(rt, &written(sink), due);
    same(rt, &sink.bytes(), &text);
}

#[test]
fn no_write_follows_one_that_failed(rt: HostRuntime) -> Result<(), Fail> {
    let mut sink = sink(rt.alloc(), 100, &[5], &[2, 4])?;
    let five = Some(WriteFault { written: 5 });
    writes_twice(&rt, &mut sink, &(five, five), b"IGESCIGESC");
    drop(sink);
    Ok(())
}

#[test]
fn a_full_sink_fails(rt: HostRuntime) -> Result<(), Fail> {
    let mut sink = sink(rt.alloc(), 13, &[], &[])?;
    let two = Some(WriteFault { written: 2 });
    writes_twice(&rt, &mut sink, &(None, two), b"IGESCERT 1\nIG");
    drop(sink);
    Ok(())
}

#[test]
fn a_file_is_read(rt: HostRuntime) -> Result<(), Fail> {
    let path = "igesolid_source_test.txt";
    fs::write(&rt, path, TEXT)?;
    let mut file = open_source(&rt, path);
    let fault = fault_of(rt.alloc(), &mut file, 100);
    drop(file);
    fs::remove_file(&rt, path)?;
    same(&rt, &fault, &None);
    Ok(())
}

#[test]
fn no_file_ends_at_once(rt: HostRuntime) {
    let mut none = no_source::<File>();
    let bytes = read_all(rt.alloc(), &mut none, 0).ok();
    same(&rt, &bytes.map(|b| b.as_slice().len()), &Some(0));
}

#[test]
fn standard_output_takes_a_text(rt: HostRuntime) {
    let mut out = std_sink(io::writer(&rt));
    same(
        &rt,
        &write_all(&mut out, b"written to standard output\n"),
        &Ok(()),
    );
}
