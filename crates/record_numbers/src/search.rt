//! Entries in an order in which what is named comes first.

use crate::told::{Part, record_at, told_of};
use iges_base::NoMemory;
use iges_params::File;
use std::alloc::Global;

#[derive(Clone, Copy)]
enum Visit {
    Enter(i64),
    Leave(i64),
}

#[derive(Drop)]
struct Search {
    seen: Vec<bool>,
    // What is to be done, the last first.
    visits: Vec<Visit>,
    order: Vec<i64>,
}

// Marks an entry that wasn't seen yet.
fn see(seen: &mut [bool], number: i64) -> bool {
    match usize::try_from(number) {
        Ok(place) if place < seen.len() && !seen[place] => {
            seen[place] = true;
            true
        }
        _ => false,
    }
}

// Whether an entry names nothing, as an arc (IGES 5.3, 4.3) or a line (4.13) without a matrix.
fn names_nothing(file: &File, number: i64) -> bool {
    match record_at(file, number) {
        Some(found) => matches!(found.entry.kind, 100 | 110) && found.entry.matrix == 0,
        None => true,
    }
}

fn push_named(visits: &mut Vec<Visit>, parts: &[Part<'_>]) -> Result<(), NoMemory> {
    'parts: for part in parts {
        if let Part::Pointer(Some(number)) = part {
            visits.push(Visit::Enter(*number))?;
        }
    }
    Ok(())
}

impl Search {
    fn enter(&mut self, alloc: Global, file: &File, number: i64) -> Result<(), NoMemory> {
        if !see(&mut self.seen, number) {
            return Ok(());
        }
        self.visits.push(Visit::Leave(number))?;
        if names_nothing(file, number) {
            return Ok(());
        }
        if let Some(told) = told_of(alloc, file, number)? {
            push_named(&mut self.visits, told.parts.as_slice())?;
        }
        Ok(())
    }

    fn follow(&mut self, alloc: Global, file: &File) -> Result<(), NoMemory> {
        'visits: for _ in 0..u64::MAX {
            match self.visits.pop() {
                Some(Visit::Enter(number)) => self.enter(alloc, file, number)?,
                Some(Visit::Leave(number)) => self.order.push(number)?,
                None => return Ok(()),
            }
        }
        Ok(())
    }
}

/// These entries and all that they reach, what is named before what names it. Where pointers lead round, some come first.
pub fn order_of(alloc: Global, file: &File, entries: &[i64]) -> Result<Vec<i64>, NoMemory> {
    let mut search = Search {
        seen: vec![in alloc; false; 2 * file.entry_count()]?,
        visits: Vec::new(alloc),
        order: Vec::new(alloc),
    };
    'entries: for number in entries {
        search.visits.push(Visit::Enter(*number))?;
        search.follow(alloc, file)?;
    }
    Ok(search.order)
}
