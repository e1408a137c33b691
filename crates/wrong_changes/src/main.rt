//! `wrong_changes`: what the checker of changes says of a change that fits, and of many that don't, each for another clause.
//! tests/wrong_changes.py writes what it reads and must print.
#![tactic(auto)]

mod items;
mod numbers;

use crate::items::Item;
use crate::numbers::Row;
use brep_walk::walk;
use change_fits::fits;
use iges_base::{EntryNo, FILE_LIMIT, NoMemory};
use iges_params::read_file;
use shell_change::{Change, Geometry};
use solid_data::Solid;
use std::alloc::Global;
use std::{fs, io};

// The solid of the first entry of a file.
fn solid_of(alloc: Global, text: &[u8]) -> Option<Solid> {
    if text.len() as u64 > FILE_LIMIT {
        return None;
    }
    let file = read_file(alloc, text).ok()?;
    walk(alloc, &file, EntryNo(1)).ok()
}

// The item that all numbers of a row stand for.
fn item_of<T: Item>(alloc: Global, numbers: &[u8]) -> Option<T> {
    let mut row = Row { numbers, at: 0 };
    let item = T::read(alloc, &mut row);
    if row.at != numbers.len() {
        return None;
    }
    Some(item)
}

fn words(fit: Result<bool, NoMemory>) -> &'static str {
    match fit {
        Ok(true) => "fits",
        Ok(false) => "refused",
        Err(NoMemory) => "unjudged",
    }
}

// What the checker says of the change that a row stands for.
fn verdict(alloc: Global, solid: &Solid, geometry: &Geometry, row: &str) -> &'static str {
    match item_of::<Change>(alloc, row.as_bytes()) {
        Some(change) => words(fits(alloc, solid, geometry, &change)),
        None => "unread",
    }
}

// Prints a line for each change, which stands behind its name: what the checker says, and the name.
fn print_verdicts(
    rt: &HostRuntime,
    solid: &Solid,
    geometry: &Geometry,
    changes: &str,
) -> io::Result<()> {
    'lines: for line in changes.lines() {
        let Some((name, change)) = line.split_once('\t') else {
            continue;
        };
        let said = verdict(rt.alloc(), solid, geometry, change);
        println!(rt; "{said}: {name}")?;
    }
    Ok(())
}

// Judges the changes below the line of the geometry.
fn judge(rt: &HostRuntime, solid: &Solid, text: &str) -> io::Result<()> {
    let Some((known, changes)) = text.split_once('\n') else {
        return println!(rt; "no changes");
    };
    match item_of::<Geometry>(rt.alloc(), known.as_bytes()) {
        Some(geometry) => print_verdicts(rt, solid, &geometry, changes),
        None => println!(rt; "no geometry"),
    }
}

fn main(rt: HostRuntime) -> io::Result<()> {
    let file = fs::read_to_string(&rt, "solid.igs")?;
    let text = fs::read_to_string(&rt, "changes.txt")?;
    match solid_of(rt.alloc(), file.as_str().as_bytes()) {
        Some(solid) => judge(&rt, &solid, text.as_str()),
        None => println!(rt; "no solid"),
    }
}
