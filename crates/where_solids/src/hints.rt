//! The hints on the solids of a file.

ghost use Rattle.iges_base.specs.declared.entry_no.EntryNo.{EntryNo as AnyEntryNo};
ghost use Rattle.std.specs.Prelude.{◌≡◌, ◌++◌, List, OnOk, decimal, flat_map, length, ℕ};
ghost use Rattle.where_solids.specs.Hints.{no_solid_hint, solids_hint, solids_sentence};
ghost use Rattle.where_text.specs.declared.listing.Listing.TheVariants.{Few};
ghost use Rattle.where_text.specs.Listing.{more_words, shown};
ghost use Rattle.where_text.specs.Spelled.{space_word};

use iges_base::{EntryNo, NoMemory, Out};
use where_text::{EntryNumbers, Listing, put_more_words, put_number, shown_members};

const SOLIDS: &str = "  The solids of this file are these. Take one of their numbers.\n";

const NO_SOLID: &str = "hint no-solid\n  This file holds no solid (entity 186 of form 0).\n";

fn put_numbers(out: &mut Out, numbers: &[EntryNo]) -> Result<(), NoMemory>
    ensures { OnOk result (out.new ≡ out.old
        ++ flat_map (λ (n : AnyEntryNo). space_word (decimal n.0)) numbers.now) }
{
    'numbers: for i in 0..numbers.len() {
        put_number(out, u64::from(numbers[i].0))?;
    }
    Ok(())
}

/// Appends that there is no solid.
#[tactic(auto, unfolding(crate::specs::Hints::no_solid_hint))]
pub fn put_no_solid(out: &mut Out) -> Result<(), NoMemory>
    ensures { OnOk result (out.new ≡ out.old ++ no_solid_hint) }
{
    out.put(NO_SOLID.as_bytes())
}

#[tactic(auto, unfolding(crate::specs::Hints::solids_sentence))]
fn put_solids_sentence(out: &mut Out) -> Result<(), NoMemory>
    ensures { OnOk result (out.new ≡ out.old ++ solids_sentence) }
{
    out.put(SOLIDS.as_bytes())
}

// The first of these numbers, and how many more there are.
fn put_shown(out: &mut Out, numbers: &[EntryNo]) -> Result<(), NoMemory>
    ensures { OnOk result (out.new ≡ out.old
        ++ (flat_map (λ (n : AnyEntryNo). space_word (decimal n.0)) (shown Few numbers.now)
        ++ more_words Few (length numbers.now))) }
{
    let shown = shown_members(Listing::Few, numbers);
    put_numbers(out, shown)?;
    put_more_words(out, numbers.len() - shown.len())
}

/// Appends which solids there are: the first 20, and how many more.
#[tactic(auto, unfolding(crate::specs::Hints::solids_hint))]
pub fn put_solids_hint(out: &mut Out, solids: &EntryNumbers) -> Result<(), NoMemory>
    ensures { OnOk result (out.new ≡ out.old ++ solids_hint solids.now) }
{
    if solids.len() == 0 {
        return put_no_solid(out);
    }
    out.put(b"hint solids")?;
    put_shown(out, solids.as_slice())?;
    out.put(b"\n")?;
    put_solids_sentence(out)
}
