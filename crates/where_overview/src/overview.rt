//! The text on all solids of a file.

ghost use Rattle.solid_data.specs.declared.verdict.Verdict.{Verdict as AnyVerdict};
ghost use Rattle.std.specs.Prelude.{◌≡◌, ◌++◌, ◌&&◌, ◌==◌, nat_lt, List, IfOk, OnOk, Option, count_by, flat_map, length, zip};
ghost use Rattle.where_overview.specs.Overview.{IsOverview, all_close, fails, is_unjudged, overview_end, overview_start, solid_paragraph, unjudged_hint, unjudged_lines, unjudged_sentence, verdict_words};
ghost use Rattle.where_unjudged.specs.Unjudged.{unjudged_text};
ghost use Rattle.where_text.specs.Spelled.{space_word};

use crate::judging::verdicts;
use iges_base::{Bytes, EntryNo, ItemList, NoMemory, Out};
use iges_params::File;
use solid_data::Verdict;
use std::alloc::Global;
use where_entities::put_entity_facts;
use where_places::PlacedFile;
use where_solids::{put_count, put_failing, put_no_solid};
use where_text::{EntryNumbers, put_number};
use where_unjudged::{put_unjudged, solids};

const UNJUDGED: &str =
    "  The solids of this file name the same loops again and again, so these\n  weren't judged here. To judge one, run igesolid where with its number.\n";

/// Whether there are solids and all are closed, and a text that speaks of each.
#[derive(Drop)]
pub struct Overview {
    pub all_closed: bool,
    pub text: Bytes,
}

fn fails(verdict: Option<Verdict>) -> bool
    ensures { result ≡ fails verdict }
{
    match verdict {
        Some(Verdict::Fails(_)) => true,
        _ => false,
    }
}

fn failing_count(verdicts: &[Option<Verdict>]) -> usize
    ensures { result ≡ count_by fails verdicts.now }
{
    let mut count = 0;
    'verdicts: for i in 0..verdicts.len() {
        if fails(verdicts[i]) {
            count += 1;
        }
    }
    count
}

fn is_unjudged(verdict: Option<Verdict>) -> bool
    ensures { result ≡ is_unjudged verdict }
{
    match verdict {
        Some(_) => false,
        None => true,
    }
}

fn unjudged_count(verdicts: &[Option<Verdict>]) -> usize
    ensures { result ≡ count_by is_unjudged verdicts.now }
{
    let mut count = 0;
    'verdicts: for i in 0..verdicts.len() {
        if is_unjudged(verdicts[i]) {
            count += 1;
        }
    }
    count
}

// The line of the counts.
#[tactic(auto, unfolding(crate::specs::Overview::overview_start))]
fn put_start(out: &mut Out, solids: usize, failing: usize) -> Result<(), NoMemory>
    ensures { (vs : List (Option AnyVerdict)) → length vs ≡ solids → count_by fails vs ≡ failing
        → OnOk result (out.new ≡ out.old ++ overview_start vs) }
{
    out.put(b"solids")?;
    put_number(out, solids as u64)?;
    put_count(out, "failing", failing)?;
    out.put(b"\n")
}

// That there is no solid, where there is none.
#[tactic(auto, unfolding(crate::specs::Overview::overview_end))]
fn put_end(out: &mut Out, solids: usize) -> Result<(), NoMemory>
    ensures { OnOk result (out.new ≡ out.old ++ overview_end solids) }
{
    if solids == 0 {
        return put_no_solid(out);
    }
    Ok(())
}

#[tactic(auto, unfolding(crate::specs::Overview::unjudged_sentence))]
fn put_unjudged_sentence(out: &mut Out) -> Result<(), NoMemory>
    ensures { OnOk result (out.new ≡ out.old ++ unjudged_sentence) }
{
    out.put(UNJUDGED.as_bytes())
}

#[tactic(auto, unfolding(crate::specs::Overview::unjudged_lines))]
fn put_unjudged_lines(out: &mut Out, unjudged: usize) -> Result<(), NoMemory>
    ensures { OnOk result (out.new ≡ out.old ++ unjudged_lines unjudged) }
{
    out.put(b"hint unjudged solids")?;
    put_number(out, unjudged as u64)?;
    out.put(b"\n")?;
    put_unjudged_sentence(out)
}

// How many solids aren't judged, and what helps; nothing where all are.
fn put_unjudged_hint(out: &mut Out, unjudged: usize) -> Result<(), NoMemory>
    ensures { OnOk result (out.new ≡ out.old ++ unjudged_hint unjudged) }
{
    if unjudged == 0 {
        return Ok(());
    }
    put_unjudged_lines(out, unjudged)
}

// What follows the solids, of which there are so many, and so many that aren't judged.
fn put_rest(
    alloc: Global,
    out: &mut Out,
    file: &File,
    solids: usize,
    unjudged: usize,
) -> Result<(), NoMemory>
    ensures { OnOk result (out.new ≡ out.old
        ++ (unjudged_text file.now ++ overview_end solids ++ unjudged_hint unjudged)) }
{
    put_unjudged(alloc, out, file)?;
    put_end(out, solids)?;
    put_unjudged_hint(out, unjudged)
}

fn put_verdict_words(out: &mut Out, verdict: Option<Verdict>) -> Result<(), NoMemory>
    ensures { OnOk result (out.new ≡ out.old ++ verdict_words verdict) }
{
    match verdict {
        Some(Verdict::Closed) => out.put(b"closed"),
        Some(Verdict::Fails(failing)) => put_failing(out, failing),
        None => out.put(b"unjudged"),
    }
}

#[tactic(auto, unfolding(crate::specs::Overview::solid_paragraph))]
fn put_solid(
    alloc: Global,
    out: &mut Out,
    placed: &PlacedFile,
    no: EntryNo,
    verdict: Option<Verdict>,
) -> Result<(), NoMemory>
    ensures { OnOk result (out.new ≡ out.old ++ solid_paragraph placed.now (no, verdict)) }
{
    out.put(b"solid")?;
    put_number(out, u64::from(no.0))?;
    out.put(b" ")?;
    put_verdict_words(out, verdict)?;
    out.put(b"\n")?;
    put_entity_facts(alloc, out, placed, no)
}

fn put_solids(
    alloc: Global,
    out: &mut Out,
    placed: &PlacedFile,
    solids: &[EntryNo],
    verdicts: &[Option<Verdict>],
) -> Result<(), NoMemory>
    requires { length verdicts.now ≡ length solids.now }
    ensures { OnOk result (out.new ≡ out.old
        ++ flat_map (solid_paragraph placed.now) (zip solids.now verdicts.now)) }
{
    'solids: for i in 0..solids.len() {
        put_solid(alloc, out, placed, solids[i], verdicts[i])?;
    }
    Ok(())
}

/// How many solids fail, and how many aren't judged.
#[derive(Clone, Copy)]
pub struct Tally {
    pub failing: usize,
    pub unjudged: usize,
}

fn tally_of(verdicts: &[Option<Verdict>]) -> Tally
    ensures failing { result.failing ≡ count_by fails verdicts.now }
    ensures unjudged { result.unjudged ≡ count_by is_unjudged verdicts.now }
{
    Tally {
        failing: failing_count(verdicts),
        unjudged: unjudged_count(verdicts),
    }
}

fn text_of(
    alloc: Global,
    placed: &PlacedFile,
    solids: &EntryNumbers,
    verdicts: &ItemList<Option<Verdict>>,
    tally: Tally,
) -> Result<Bytes, NoMemory>
    requires each { length verdicts.now ≡ length solids.now }
    requires failing { tally.failing ≡ count_by fails verdicts.now }
    requires unjudged { tally.unjudged ≡ count_by is_unjudged verdicts.now }
    ensures { IfOk result (λ text. text ≡ overview_start verdicts.now
        ++ flat_map (solid_paragraph placed.now) (zip solids.now verdicts.now)
        ++ (unjudged_text placed.now.file ++ overview_end (length solids.now) ++ unjudged_hint (count_by is_unjudged verdicts.now))) }
{
    let mut out = Out::new(alloc);
    put_start(&mut out, solids.len(), tally.failing)?;
    put_solids(
        alloc,
        &mut out,
        placed,
        solids.as_slice(),
        verdicts.as_slice(),
    )?;
    let unjudged = tally.unjudged;
    put_rest(alloc, &mut out, &placed.file, solids.len(), unjudged)?;
    Ok(out.into_bytes())
}

fn all_closed(solids: usize, tally: Tally) -> bool
    ensures { result ≡ (nat_lt 0 solids && (tally.failing == 0 && tally.unjudged == 0)) }
{
    solids > 0 && (tally.failing == 0 && tally.unjudged == 0)
}

/// Says of each solid of a file, in directory order, whether it is closed, or the first rule that fails. It errs only
/// where memory runs out. What stands beside the solids is told too. Each solid's records are walked once, and not at all
/// where an earlier solid names the same shell alone. A solid isn't judged where it and those judged before it name
/// more values of loops than the file has bytes: so the time is in proportion to the file, however often it names its
/// loops.
pub fn tell_all(alloc: Global, placed: &PlacedFile) -> Result<Overview, NoMemory>
    ensures { IfOk result (λ told. (vs : List (Option AnyVerdict)) × IsOverview placed.now vs told.text
        × (told.all_closed ≡ all_close vs)) }
{
    let solids = solids(alloc, &placed.file)?;
    let verdicts = verdicts(alloc, placed, solids.as_slice())?;
    let tally = tally_of(verdicts.as_slice());
    Ok(Overview {
        all_closed: all_closed(solids.len(), tally),
        text: text_of(alloc, placed, &solids, &verdicts, tally)?,
    })
}
