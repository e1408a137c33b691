//! The paragraphs on the remedies of a shell.

ghost use Rattle.std.specs.Prelude.{◌≡◌, ◌++◌, OnOk};
ghost use Rattle.remedy_text.specs.Remedies.{explanation, more_remedies, remedy_head, stuck_text};
ghost use Rattle.remedy_text.specs.Viewed.{remedy_text, steps_named, steps_text};

use crate::body_steps::put_body_steps;
use crate::edge_steps::put_edge_steps;
use crate::face_steps::put_face_steps;
use crate::loop_steps::put_loop_steps;
use crate::sentences::{put_remedy_sentence, put_stuck_sentence};
use crate::view::RemedyView;
use crate::words::put_count;
use iges_base::{NoMemory, Out};
use shell_change::Change;
use solid_data::ShellAt;
use std::alloc::Global;
use where_text::EntryNumbers;

/// The head of a remedy.
#[derive(Clone, Copy)]
pub struct Heading {
    /// Its number among the remedies of its shell, from 1.
    pub number: usize,
    /// Whether the sentence follows that says what a remedy is.
    pub explained: bool,
}

#[tactic(auto, unfolding(crate::specs::Remedies::explanation))]
fn put_explanation(out: &mut Out, told: bool) -> Result<(), NoMemory>
    ensures { OnOk result (out.new ≡ out.old ++ explanation told) }
{
    if told {
        return put_remedy_sentence(out);
    }
    Ok(())
}

#[tactic(auto, unfolding(crate::specs::Remedies::remedy_head))]
fn put_remedy_head(out: &mut Out, heading: Heading, shell: ShellAt) -> Result<(), NoMemory>
    ensures { OnOk result (out.new ≡ out.old ++ remedy_head heading shell.0) }
{
    put_count(out, "hint remedy", heading.number)?;
    put_count(out, " shell", shell.0 as usize + 1)?;
    out.put(b"\n")?;
    put_explanation(out, heading.explained)
}

#[tactic(auto, unfolding(crate::specs::Steps::steps_text, crate::specs::Steps::steps_named))]
fn put_steps(
    alloc: Global,
    out: &mut Out,
    named: &mut EntryNumbers,
    view: &RemedyView<'_>,
    change: &Change,
) -> Result<(), NoMemory>
    ensures text { OnOk result (out.new ≡ out.old ++ steps_text view.now change.now) }
    ensures named { OnOk result (named.new ≡ named.old ++ steps_named view.now change.now) }
{
    put_face_steps(alloc, out, named, view, change)?;
    put_loop_steps(alloc, out, named, view, change)?;
    put_edge_steps(out, view, change)?;
    put_body_steps(alloc, out, named, view, change)
}

/// Appends a remedy, and its steps. The faces that its items name join the others that are named.
pub fn put_remedy(
    alloc: Global,
    out: &mut Out,
    named: &mut EntryNumbers,
    view: &RemedyView<'_>,
    heading: Heading,
    change: &Change,
) -> Result<(), NoMemory>
    ensures text { OnOk result (out.new ≡ out.old ++ remedy_text view.now heading change.now) }
    ensures named { OnOk result (named.new ≡ named.old ++ steps_named view.now change.now) }
{
    put_remedy_head(out, heading, change.shell)?;
    put_steps(alloc, out, named, view, change)
}

/// Appends how many remedies of a shell aren't written; nothing where all are.
#[tactic(auto, unfolding(crate::specs::Remedies::more_remedies))]
pub fn put_more_remedies(out: &mut Out, left: usize) -> Result<(), NoMemory>
    ensures { OnOk result (out.new ≡ out.old ++ more_remedies left) }
{
    if left == 0 {
        return Ok(());
    }
    put_count(out, "hint more", left)?;
    out.put(b"\n")
}

/// Appends that a shell has no remedy.
#[tactic(auto, unfolding(crate::specs::Remedies::stuck_text))]
pub fn put_stuck(out: &mut Out, shell: ShellAt) -> Result<(), NoMemory>
    ensures { OnOk result (out.new ≡ out.old ++ stuck_text shell.0) }
{
    put_count(out, "hint stuck shell", shell.0 as usize + 1)?;
    out.put(b"\n")?;
    put_stuck_sentence(out)
}
