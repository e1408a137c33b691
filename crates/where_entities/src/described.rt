//! Which entities are described.

ghost use Rattle.entry_references.specs.Refs.{names_entry};
ghost use Rattle.std.specs.Prelude.{◌≡◌, ◌+◌, ◌*◌, ◌<◌, ◌||◌, ◌&&◌, ◌==◌, ◌++◌, ◌∷◌, [], ℕ, false, pos, length, vec_len, IfOk, OnOk, filter, get_or};
ghost use Rattle.where_entities.specs.Entities.{described, is_among, is_described, number_at};

use iges_base::{EntryNo, ItemList, NoMemory};
use iges_params::File;
use std::alloc::Global;
use where_text::EntryNumbers;

// Marks an entry by its directory number; an even number and one past the end mark none.
fn mark(marks: &mut [bool], no: EntryNo)
    ensures { (k : ℕ) → k < length marks.old
        → get_or marks.new k false ≡ (get_or marks.old k false || (no.0 == 2 * k + 1)) }
{
    let place = (no.0 / 2) as usize;
    if no.0 % 2 == 1 && place < marks.len() {
        marks[place] = true;
    }
}

// Which of so many entries are among the numbers.
fn marks_of(alloc: Global, count: usize, numbers: &EntryNumbers) -> Result<Vec<bool>, NoMemory>
    ensures len { IfOk result (λ marks. vec_len marks ≡ count) }
    ensures marks { IfOk result (λ marks. (k : ℕ) → k < count
        → get_or marks.items k false ≡ is_among numbers.now (number_at k)) }
{
    let mut marks = vec![in alloc; false; count]?;
    let listed = numbers.as_slice();
    'numbers: for i in 0..listed.len() {
        mark(&mut marks, listed[i]);
    }
    Ok(marks)
}

fn push_if(
    list: &mut ItemList<EntryNo>,
    file: &File,
    marked: bool,
    no: EntryNo,
) -> Result<(), NoMemory>
    ensures { OnOk result (list.new ≡ list.old
        ++ filter (λ (n : EntryNo). marked && names_entry file.now (pos n.0)) (no ∷ [])) }
{
    if marked && file.entry(no).is_some() {
        return list.push(no);
    }
    Ok(())
}

/// Of these numbers those that name an entry, by rising number, each once.
#[tactic(auto, unfolding(crate::specs::Entities::described))]
pub fn described(
    alloc: Global,
    file: &File,
    numbers: &EntryNumbers,
) -> Result<EntryNumbers, NoMemory>
    ensures { IfOk result (λ list. list ≡ described file.now numbers.now) }
{
    let count = file.entry_count();
    let marks = marks_of(alloc, count, numbers)?;
    let mut list = ItemList::new(alloc);
    'entries: for i in 0..count {
        push_if(&mut list, file, marks[i], file.entry_no(i))?;
    }
    Ok(list)
}
