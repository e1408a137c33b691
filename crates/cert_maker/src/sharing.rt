//! Whether the solids of a file name loops again and again.

use iges_base::{ItemList, NoMemory};
use iges_params::File;
use named_sizes::{ENTRY, solid_sizes};
use std::alloc::Global;

fn solids_size(alloc: Global, file: &File) -> Result<u64, NoMemory> {
    let mut solids = ItemList::new(alloc);
    'entries: for i in 0..file.entry_count() {
        if file.is_solid_at(i) {
            solids.push(file.entry_no(i))?;
        }
    }
    let sizes = solid_sizes(alloc, file, solids.as_slice())?;
    Ok(sum(sizes.as_slice()))
}

fn sum(sizes: &[u64]) -> u64 {
    let mut total: u64 = 0;
    'sizes: for i in 0..sizes.len() {
        total = total.saturating_add(sizes[i]);
    }
    total
}

// The size of all records, each once.
fn records_size(file: &File) -> u64 {
    let mut total: u64 = 0;
    'entries: for i in 0..file.entry_count() {
        let values = match file.values(file.entry_no(i)) {
            Some(values) => values.len() as u64,
            None => 0,
        };
        total = total.saturating_add(values).saturating_add(ENTRY);
    }
    total
}

/// Whether the loops that solids name, each as often as it is named, have more values than all records: never where each is
/// named once.
pub(crate) fn name_much(alloc: Global, file: &File) -> Result<bool, NoMemory> {
    Ok(solids_size(alloc, file)? > records_size(file))
}
