//! The steps of loops and their uses.

ghost use Rattle.std.specs.Prelude.{◌≡◌, ◌++◌, ◌∷◌, [], OnOk, flat_map, map};
ghost use Rattle.remedy_text.specs.declared.sentences.Step.TheVariants as step;
ghost use Rattle.remedy_text.specs.Lines.{flag_item, flag_number as number_of};
ghost use Rattle.remedy_text.specs.Steps.{loop_face, step_text as listed_step_text};
ghost use Rattle.remedy_text.specs.Viewed.{loop_item, loop_steps, reversed as are_reversed, shown, step_text};

use crate::loops::reversed;
use crate::sentences::Step;
use crate::told::{FaceLoop, TupleFlag, faces_of};
use crate::turned_uses::flags;
use crate::view::RemedyView;
use crate::words::{put_count, put_face, put_step_head};
use iges_base::{NoMemory, Out};
use shell_change::Change;
use std::alloc::Global;
use where_text::{EntryNumbers, Listing, put_more_items, shown_members};

#[tactic(auto, unfolding(crate::specs::Lines::loop_item))]
fn put_loop_item(
    out: &mut Out,
    named: &mut EntryNumbers,
    view: &RemedyView<'_>,
    item: FaceLoop,
) -> Result<(), NoMemory>
    ensures text { OnOk result (out.new ≡ out.old ++ loop_item view.now item) }
    ensures named { OnOk result (named.new ≡ named.old ++ item.face ∷ []) }
{
    put_count(out, "reverse loop", item.walk.0 as usize)?;
    out.put(b" face")?;
    put_face(out, named, view, item.face)?;
    out.put(b"\n")
}

fn put_loop_items(
    out: &mut Out,
    named: &mut EntryNumbers,
    view: &RemedyView<'_>,
    loops: &[FaceLoop],
) -> Result<(), NoMemory>
    ensures text { OnOk result (out.new ≡ out.old ++ flat_map (loop_item view.now) loops.now) }
    ensures named { OnOk result (named.new ≡ named.old ++ map loop_face loops.now) }
{
    'loops: for i in 0..loops.len() {
        put_loop_item(out, named, view, loops[i])?;
    }
    Ok(())
}

fn put_reversed(
    out: &mut Out,
    named: &mut EntryNumbers,
    view: &RemedyView<'_>,
    loops: &[FaceLoop],
) -> Result<(), NoMemory>
    ensures text { OnOk result (out.new ≡ out.old
        ++ step_text step.Reverse view.now (loop_item view.now) loops.now) }
    ensures named { OnOk result (named.new ≡ named.old ++ map loop_face (shown view.now loops.now)) }
{
    put_step_head(out, Step::Reverse, loops.len())?;
    put_loop_items(out, named, view, shown_members(view.listing, loops))?;
    put_more_items(out, loops.len() - view.listing.count(loops.len()))
}

fn flag_number(flag: bool) -> usize
    ensures { result ≡ number_of flag }
{
    if flag { 1 } else { 0 }
}

#[tactic(auto, unfolding(crate::specs::Lines::flag_item))]
fn put_flag_item(out: &mut Out, item: TupleFlag) -> Result<(), NoMemory>
    ensures { OnOk result (out.new ≡ out.old ++ flag_item item) }
{
    put_count(out, "change loop", item.walk.0 as usize)?;
    put_count(out, " tuple", item.tuple)?;
    put_count(out, " flag", flag_number(item.flag))?;
    out.put(b"\n")
}

fn put_flag_items(out: &mut Out, items: &[TupleFlag]) -> Result<(), NoMemory>
    ensures { OnOk result (out.new ≡ out.old ++ flat_map flag_item items.now) }
{
    'items: for i in 0..items.len() {
        put_flag_item(out, items[i])?;
    }
    Ok(())
}

fn put_flags(out: &mut Out, listing: Listing, items: &[TupleFlag]) -> Result<(), NoMemory>
    ensures { OnOk result (out.new ≡ out.old ++ listed_step_text step.Flags listing flag_item items.now) }
{
    put_step_head(out, Step::Flags, items.len())?;
    put_flag_items(out, shown_members(listing, items))?;
    put_more_items(out, items.len() - listing.count(items.len()))
}

/// The steps of the loops of a shell that is changed.
pub(crate) fn put_loop_steps(
    alloc: Global,
    out: &mut Out,
    named: &mut EntryNumbers,
    view: &RemedyView<'_>,
    change: &Change,
) -> Result<(), NoMemory>
    ensures text { OnOk result (out.new ≡ out.old ++ loop_steps view.now change.now) }
    ensures named { OnOk result (named.new ≡ named.old
        ++ map loop_face (shown view.now (are_reversed view.now change.now))) }
{
    let faces = faces_of(view.solid, change.shell);
    let reversed = reversed(alloc, faces, &change.faces)?;
    let flags = flags(alloc, faces, &change.faces)?;
    put_reversed(out, named, view, reversed.as_slice())?;
    put_flags(out, view.listing, flags.as_slice())
}
