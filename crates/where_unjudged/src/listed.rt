//! The solids of a file.

ghost use Rattle.iges_params.specs.Solids.{numbers_of, solids_of as solid_numbers};
ghost use Rattle.std.specs.Prelude.{◌≡◌, ◌++◌, ◌∷◌, [], pos, filter, IfOk, OnOk};
ghost use Rattle.where_unjudged.specs.Listed.{is_form_0, solids_of, true_solids};
ghost use Rattle.iges_params.specs.Named.{named};
ghost use Rattle.iges_base.specs.declared.entry_no.EntryNo.{EntryNo as AnyEntryNo};

use iges_base::{EntryNo, ItemList, NoMemory};
use iges_params::File;
use std::alloc::Global;
use where_text::EntryNumbers;

/// The numbers of the entries of type 186, in directory order (IGES 5.3, 4.49).
pub fn solids(alloc: Global, file: &File) -> Result<EntryNumbers, NoMemory>
    ensures { IfOk result (λ list. list ≡ solids_of file.now) }
{
    file.solids(alloc)
}

fn is_form_0(file: &File, no: EntryNo) -> bool
    ensures { result ≡ is_form_0 (named file.now (pos no.0)) }
{
    match file.entry(no) {
        Some(entry) => entry.form == 0,
        None => false,
    }
}

fn push_if(list: &mut EntryNumbers, file: &File, no: EntryNo) -> Result<(), NoMemory>
    ensures { OnOk result (list.new ≡ list.old
        ++ filter (λ (n : AnyEntryNo). is_form_0 (named file.now (pos n.0))) (no ∷ [])) }
{
    if is_form_0(file, no) {
        return list.push(no);
    }
    Ok(())
}

fn push_true(list: &mut EntryNumbers, file: &File, all: &[EntryNo]) -> Result<(), NoMemory>
    ensures { OnOk result (list.new ≡ list.old
        ++ filter (λ (n : AnyEntryNo). is_form_0 (named file.now (pos n.0))) all.now) }
{
    'solids: for i in 0..all.len() {
        push_if(list, file, all[i])?;
    }
    Ok(())
}

/// The numbers of the solids of a file: the entries of type 186 and form 0, in directory order.
#[tactic(auto, unfolding(crate::specs::Listed::true_solids))]
pub fn true_solids(alloc: Global, file: &File) -> Result<EntryNumbers, NoMemory>
    ensures { IfOk result (λ list. list ≡ true_solids file.now) }
{
    let all = solids(alloc, file)?;
    let mut list = ItemList::new(alloc);
    push_true(&mut list, file, all.as_slice())?;
    Ok(list)
}
