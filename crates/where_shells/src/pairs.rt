//! The paragraph on the edges of a shell that aren't paired.

ghost use Rattle.edge_uses.specs.Joins.{begin_of};
ghost use Rattle.solid_faults.specs.Edges.{rows_on_edge};
ghost use Rattle.shell_components.specs.Groups.{places_of};
ghost use Rattle.shell_facts.specs.RowPlaces.{places_in};
ghost use Rattle.std.specs.Prelude.{◌≡◌, ℕ, ◌<◌, ◌-◌, ◌++◌, ◌∷◌, [], OnOk, flat_map, option_copied, slice_get, take};
ghost use Rattle.where_shells.specs.Pair.{edge_head, flag_in, flag_words, row_named, tuple_words, usage_words, way_word};
ghost use Rattle.where_shells.specs.Viewed.{HasRows, HasShell, edge_facts, edge_named, edge_text, pair_lines, pair_named, pair_text, place_fact, row_fact, row_facts, rows_named, shown};

use crate::lines::{put_curve_words, put_edge_words, put_face, put_rule, put_vertex_line};
use crate::view::{Page, ShellView};
use edge_uses::{Rows, begins_at};
use iges_base::{NoMemory, Out};
use shell_facts::{Groups, RowPlace, row_places, rows_by_edge};
use solid_data::{EdgeId, EdgeKey, Rule};
use solid_faults::{Unpaired, use_counts};
use std::alloc::Global;
use where_text::{put_more_facts, put_more_items, put_number, put_rule_sentence, put_word};

fn way_word(along: bool) -> &'static str
    ensures { result.now ≡ way_word along }
{
    if along { "along" } else { "against" }
}

#[tactic(auto, unfolding(crate::specs::Pair::tuple_words))]
fn put_tuple_words(out: &mut Out, place: RowPlace) -> Result<(), NoMemory>
    ensures { OnOk result (out.new ≡ out.old ++ tuple_words place) }
{
    out.put(b" loop")?;
    put_number(out, u64::from(place.walk.0))?;
    out.put(b" tuple")?;
    put_number(out, u64::from(place.tuple))
}

#[tactic(auto, unfolding(crate::specs::Pair::flag_words))]
fn put_flag_words(out: &mut Out, shell_flag: bool, place: RowPlace) -> Result<(), NoMemory>
    ensures { OnOk result (out.new ≡ out.old ++ flag_words shell_flag place) }
{
    out.put(b" flags")?;
    put_number(out, u64::from(place.flag))?;
    put_number(out, u64::from(place.face_flag))?;
    put_number(out, u64::from(shell_flag))
}

/// The rows of a shell, where each is, and which each edge has.
#[derive(Drop)]
struct KnownRows<'a> {
    rows: &'a Rows,
    flag: bool,
    places: Vec<RowPlace>,
    by_edge: Groups,
    ghost each_edge: { (e : ℕ) → places_of e by_edge ≡ rows_on_edge rows.now e },
}

#[tactic(auto, unfolding(crate::specs::Pair::place_fact))]
fn put_place(
    page: &mut Page,
    view: &ShellView<'_>,
    shell_flag: bool,
    place: RowPlace,
) -> Result<(), NoMemory>
    ensures text { OnOk result (page.new.out
        ≡ page.old.out ++ place_fact view.now shell_flag place) }
    ensures named { OnOk result (page.new.named ≡ page.old.named ++ place.face ∷ []) }
{
    page.out.put(b" ")?;
    put_word(&mut page.out, way_word(place.along))?;
    page.out.put(b" face")?;
    put_face(page, view, place.face)?;
    put_tuple_words(&mut page.out, place)?;
    put_flag_words(&mut page.out, shell_flag, place)?;
    page.out.put(b"\n")
}

fn put_row(
    page: &mut Page,
    view: &ShellView<'_>,
    shell_flag: bool,
    places: &[RowPlace],
    row: u32,
) -> Result<(), NoMemory>
    ensures text { OnOk result (page.new.out ≡ page.old.out
        ++ row_fact view.now shell_flag (slice_get places.now row)) }
    ensures named { OnOk result (page.new.named
        ≡ page.old.named ++ row_named (slice_get places.now row)) }
{
    match places.get(row as usize) {
        Some(place) => put_place(page, view, shell_flag, *place),
        None => Ok(()),
    }
}

fn put_shown_rows(
    page: &mut Page,
    view: &ShellView<'_>,
    shell_flag: bool,
    places: &[RowPlace],
    rows: &[u32],
) -> Result<(), NoMemory>
    ensures text { OnOk result (page.new.out ≡ page.old.out
        ++ flat_map (λ (r : ℕ). row_fact view.now shell_flag (slice_get places.now r)) rows.now) }
    ensures named { OnOk result (page.new.named ≡ page.old.named
        ++ flat_map (λ (r : ℕ). row_named (slice_get places.now r)) rows.now) }
{
    'rows: for i in 0..rows.len() {
        put_row(page, view, shell_flag, places, rows[i])?;
    }
    Ok(())
}

fn put_rows(
    page: &mut Page,
    view: &ShellView<'_>,
    shell_flag: bool,
    places: &[RowPlace],
    rows: &[u32],
) -> Result<(), NoMemory>
    ensures text { OnOk result (page.new.out ≡ page.old.out
        ++ row_facts view.now shell_flag places.now rows.now) }
    ensures named { OnOk result (page.new.named
        ≡ page.old.named ++ rows_named view.now places.now rows.now) }
{
    let count = view.listing.count(rows.len());
    put_shown_rows(page, view, shell_flag, places, &rows[..count])?;
    put_more_facts(&mut page.out, rows.len() - count)
}

#[tactic(auto, unfolding(crate::specs::Pair::edge_head))]
fn put_edge_head(out: &mut Out, key: EdgeKey, unpaired: Unpaired) -> Result<(), NoMemory>
    ensures { OnOk result (out.new ≡ out.old ++ edge_head key unpaired) }
{
    out.put(b"edge")?;
    put_edge_words(out, key)?;
    out.put(b" along")?;
    put_number(out, u64::from(unpaired.along))?;
    out.put(b" against")?;
    put_number(out, u64::from(unpaired.against))?;
    out.put(b"\n")
}

#[tactic(auto, unfolding(crate::specs::Pair::edge_facts))]
fn put_edge_facts(out: &mut Out, view: &ShellView<'_>, edge: EdgeId) -> Result<(), NoMemory>
    ensures { OnOk result (out.new ≡ out.old ++ edge_facts view.now edge.0) }
{
    out.put(b" ")?;
    put_curve_words(out, view.file, view.solid.edge_key(edge))?;
    out.put(b"\n")?;
    let ends = view.solid.edge(edge);
    put_vertex_line(out, view, "  start", begins_at(ends, true))?;
    put_vertex_line(out, view, "  end", begins_at(ends, false))
}

fn put_edge(
    page: &mut Page,
    view: &ShellView<'_>,
    known: &KnownRows<'_>,
    unpaired: Unpaired,
) -> Result<(), NoMemory>
    ensures text { OnOk result (page.new.out ≡ page.old.out
        ++ edge_text view.now known.now.flag known.now.rows.now known.now.places.items unpaired) }
    ensures named { OnOk result (page.new.named ≡ page.old.named
        ++ edge_named view.now known.now.rows.now known.now.places.items unpaired) }
{
    let key = view.solid.edge_key(unpaired.edge);
    put_edge_head(&mut page.out, key, unpaired)?;
    put_edge_facts(&mut page.out, view, unpaired.edge)?;
    let rows = known.by_edge.places(unpaired.edge.0);
    put_rows(page, view, known.flag, known.places.as_slice(), rows)
}

fn put_edges(
    page: &mut Page,
    view: &ShellView<'_>,
    known: &KnownRows<'_>,
    unpaired: &[Unpaired],
) -> Result<(), NoMemory>
    ensures text { OnOk result (page.new.out ≡ page.old.out
        ++ flat_map
        (edge_text view.now known.now.flag known.now.rows.now known.now.places.items) unpaired.now) }
    ensures named { OnOk result (page.new.named ≡ page.old.named
        ++ flat_map (edge_named view.now known.now.rows.now known.now.places.items) unpaired.now) }
{
    'edges: for i in 0..unpaired.len() {
        put_edge(page, view, known, unpaired[i])?;
    }
    Ok(())
}

#[tactic(auto, unfolding(crate::specs::Pair::usage_words))]
fn put_usage_words(out: &mut Out, unpaired: &[Unpaired]) -> Result<(), NoMemory>
    ensures { OnOk result (out.new ≡ out.old ++ usage_words unpaired.now) }
{
    let counts = use_counts(unpaired);
    out.put(b" once")?;
    put_number(out, counts.once as u64)?;
    out.put(b" same-way")?;
    put_number(out, counts.same_way as u64)?;
    out.put(b" many")?;
    put_number(out, counts.many as u64)?;
    out.put(b"\n")
}

#[tactic(auto, unfolding(crate::specs::Pair::pair_lines))]
fn put_pair_lines(
    page: &mut Page,
    view: &ShellView<'_>,
    known: &KnownRows<'_>,
    unpaired: &[Unpaired],
) -> Result<(), NoMemory>
    ensures text { OnOk result (page.new.out ≡ page.old.out
        ++ pair_lines view.now known.now.flag known.now.rows.now known.now.places.items unpaired.now) }
    ensures named { OnOk result (page.new.named ≡ page.old.named
        ++ flat_map (edge_named view.now known.now.rows.now known.now.places.items)
        (shown view.now unpaired.now)) }
{
    let count = view.listing.count(unpaired.len());
    put_rule(&mut page.out, Rule::Unpaired, view.at, unpaired.len())?;
    put_usage_words(&mut page.out, unpaired)?;
    put_rule_sentence(&mut page.out, Rule::Unpaired)?;
    put_edges(page, view, known, &unpaired[..count])?;
    put_more_items(&mut page.out, unpaired.len() - count)
}

/// Appends the paragraph on the edges of a shell that aren't paired: the rule, how many of them are used once, twice and more
/// often, its sentence, and for each edge its rows by direction, its curve, its ends, and each row with its face, loop and
/// tuple and its flags; nothing where there is no such edge. The faces join the numbers that facts name. It goes once
/// over the shell's uses.
pub fn put_pair(
    alloc: Global,
    page: &mut Page,
    view: &ShellView<'_>,
    unpaired: &[Unpaired],
) -> Result<(), NoMemory>
    requires shell { HasShell view.now }
    requires rows { HasRows view.now }
    ensures text { OnOk result (page.new.out ≡ page.old.out ++ pair_text view.now unpaired.now) }
    ensures named { OnOk result (page.new.named ≡ page.old.named
        ++ pair_named view.now unpaired.now) }
{
    if unpaired.is_empty() {
        return Ok(());
    }
    let known = KnownRows {
        rows: view.rows,
        flag: view.solid.shell(view.at).unwrap().flag,
        places: row_places(alloc, view.solid, view.at)?,
        by_edge: rows_by_edge(alloc, view.rows)?,
    };
    put_pair_lines(page, view, &known, unpaired)
}
