//! The paragraph on the gaps of a shell's loops.

ghost use Rattle.edge_uses.specs.Joins.{end_of, start_of};
ghost use Rattle.solid_data.specs.SolidData.{edge_name, vertex_name};
ghost use Rattle.std.specs.Prelude.{◌≡◌, ◌<◌, ◌-◌, ◌++◌, ◌∷◌, [], OnOk, Some, flat_map, map, option_copied, slice_get, take};
ghost use Rattle.where_shells.specs.Join.{face_number, gap_face, gap_head, loop_at, loop_in, tuple_after, uses_in};
ghost use Rattle.where_shells.specs.Lines.{faces_in};
ghost use Rattle.where_shells.specs.Viewed.{HasShell, gap_text, join_lines, join_named, join_text, loop_facts, meeting_facts, shown_gaps, tuple_fact, use_words};

use crate::lines::{
    put_count, put_curve_words, put_edge_words, put_face_line, put_head, put_vertex_line,
};
use crate::view::{Page, ShellView};
use edge_uses::{ends_at, starts_at};
use iges_base::{EntryNo, NoMemory, Out};
use solid_data::{FaceUse, Loop, LoopAt, LoopUse, Rule};
use solid_faults::Gap;
use where_text::{put_more_items, put_number};

fn put_use_words(out: &mut Out, view: &ShellView<'_>, item: LoopUse) -> Result<(), NoMemory>
    ensures { OnOk result (out.new ≡ out.old ++ use_words view.now item) }
{
    match item {
        LoopUse::EdgeUse { edge, along } => {
            let key = view.solid.edge_key(edge);
            out.put(b" edge")?;
            put_edge_words(out, key)?;
            out.put(b" flag")?;
            put_number(out, u64::from(along))?;
            put_curve_words(out, view.file, key)
        }
        LoopUse::VertexUse { vertex } => {
            let key = view.solid.vertex_key(vertex);
            out.put(b" vertex")?;
            put_number(out, u64::from(key.list.0))?;
            put_number(out, u64::from(key.index))
        }
    }
}

#[tactic(auto, unfolding(crate::specs::Join::tuple_fact))]
fn put_tuple_fact(
    out: &mut Out,
    view: &ShellView<'_>,
    word: &str,
    tuple: usize,
    item: LoopUse,
) -> Result<(), NoMemory>
    ensures { OnOk result (out.new ≡ out.old ++ tuple_fact word.now view.now tuple item) }
{
    out.put(word.as_bytes())?;
    put_count(out, " tuple", tuple)?;
    put_use_words(out, view, item)?;
    out.put(b"\n")
}

// Four lines: this tuple, the vertex where it ends, the next tuple, and the vertex where that starts.
#[tactic(auto, unfolding(crate::specs::Join::meeting_facts))]
fn put_meeting_facts(
    out: &mut Out,
    view: &ShellView<'_>,
    tuple: usize,
    next: usize,
    this: Option<&LoopUse>,
    other: Option<&LoopUse>,
) -> Result<(), NoMemory>
    ensures { OnOk result (out.new ≡ out.old
        ++ meeting_facts view.now tuple next (option_copied this.entry)
        (option_copied other.entry)) }
{
    let Some(this) = this else {
        return Ok(());
    };
    let Some(other) = other else {
        return Ok(());
    };
    put_tuple_fact(out, view, "  this", tuple, *this)?;
    put_vertex_line(out, view, "  ends", ends_at(view.solid, *this))?;
    put_tuple_fact(out, view, "  next", next, *other)?;
    put_vertex_line(out, view, "  starts", starts_at(view.solid, *other))
}

// The next tuple of a loop of so many, from 1.
fn tuple_after(len: usize, tuple: usize) -> usize
    ensures next { result ≡ tuple_after len tuple }
    ensures some { 0 < result }
{
    if tuple < len { tuple + 1 } else { 1 }
}

fn put_loop_facts(
    out: &mut Out,
    view: &ShellView<'_>,
    tuple: usize,
    uses: &[LoopUse],
) -> Result<(), NoMemory>
    ensures { OnOk result (out.new ≡ out.old ++ loop_facts view.now tuple uses.now) }
{
    let next = tuple_after(uses.len(), tuple);
    let this = uses.get(tuple.saturating_sub(1));
    let other = uses.get(next - 1);
    put_meeting_facts(out, view, tuple, next, this, other)
}

fn loop_at(faces: &[FaceUse], at: LoopAt) -> Option<&Loop>
    ensures { option_copied result ≡ loop_at faces.now at }
{
    let face = faces.get(at.face.0 as usize)?;
    face.loops.get(at.place as usize)
}

fn face_number(face: Option<&FaceUse>) -> EntryNo
    ensures { result ≡ face_number (option_copied face.entry) }
{
    match face {
        Some(face) => face.entity,
        None => EntryNo(0),
    }
}

#[tactic(auto, unfolding(crate::specs::Join::meeting_facts))]
fn put_loop_at(
    out: &mut Out,
    view: &ShellView<'_>,
    tuple: usize,
    walk: Option<&Loop>,
) -> Result<(), NoMemory>
    ensures { OnOk result (out.new ≡ out.old
        ++ loop_facts view.now tuple (uses_in (option_copied walk.entry))) }
{
    match walk {
        Some(walk) => put_loop_facts(out, view, tuple, walk.uses.as_slice()),
        None => Ok(()),
    }
}

// The directory number of the face whose loop has the gap.
fn gap_face(faces: &[FaceUse], gap: Gap) -> EntryNo
    ensures { result ≡ gap_face faces.now gap }
{
    face_number(faces.get(gap.at.face.0 as usize))
}

#[tactic(auto, unfolding(crate::specs::Join::gap_head))]
fn put_gap_head(out: &mut Out, gap: Gap) -> Result<(), NoMemory>
    ensures { OnOk result (out.new ≡ out.old ++ gap_head gap) }
{
    out.put(b"gap")?;
    put_number(out, u64::from(gap.entity.0))?;
    put_number(out, u64::from(gap.tuple))?;
    out.put(b"\n")
}

fn put_gap(
    page: &mut Page,
    view: &ShellView<'_>,
    faces: &[FaceUse],
    gap: Gap,
) -> Result<(), NoMemory>
    ensures text { OnOk result (page.new.out ≡ page.old.out ++ gap_text view.now faces.now gap) }
    ensures named { OnOk result (page.new.named ≡ page.old.named ++ gap_face faces.now gap ∷ []) }
{
    put_gap_head(&mut page.out, gap)?;
    put_face_line(page, view, gap_face(faces, gap))?;
    let walk = loop_at(faces, gap.at);
    put_loop_at(&mut page.out, view, gap.tuple as usize, walk)
}

fn put_gaps(
    page: &mut Page,
    view: &ShellView<'_>,
    faces: &[FaceUse],
    gaps: &[Gap],
) -> Result<(), NoMemory>
    ensures text { OnOk result (page.new.out ≡ page.old.out
        ++ flat_map (gap_text view.now faces.now) gaps.now) }
    ensures named { OnOk result (page.new.named
        ≡ page.old.named ++ map (gap_face faces.now) gaps.now) }
{
    'gaps: for i in 0..gaps.len() {
        put_gap(page, view, faces, gaps[i])?;
    }
    Ok(())
}

#[tactic(auto, unfolding(crate::specs::Join::join_lines))]
fn put_join_lines(
    page: &mut Page,
    view: &ShellView<'_>,
    faces: &[FaceUse],
    gaps: &[Gap],
) -> Result<(), NoMemory>
    ensures text { OnOk result (page.new.out ≡ page.old.out
        ++ join_lines view.now faces.now gaps.now) }
    ensures named { OnOk result (page.new.named
        ≡ page.old.named ++ map (gap_face faces.now) (shown_gaps view.now gaps.now)) }
{
    let count = view.gaps.count(gaps.len());
    put_head(&mut page.out, Rule::Unjoined, view.at, gaps.len())?;
    put_gaps(page, view, faces, &gaps[..count])?;
    put_more_items(&mut page.out, gaps.len() - count)
}

/// Appends the paragraph on the gaps of a shell's loops: the rule, its sentence, and for each gap its loop and tuple, its
/// face, the two tuples, and where one ends and the other starts; nothing where there is no gap. The faces join the
/// numbers that facts name.
pub fn put_join(page: &mut Page, view: &ShellView<'_>, gaps: &[Gap]) -> Result<(), NoMemory>
    requires { HasShell view.now }
    ensures text { OnOk result (page.new.out ≡ page.old.out ++ join_text view.now gaps.now) }
    ensures named { OnOk result (page.new.named ≡ page.old.named ++ join_named view.now gaps.now) }
{
    if gaps.is_empty() {
        return Ok(());
    }
    let faces = view.solid.shell(view.at).unwrap().faces.as_slice();
    put_join_lines(page, view, faces, gaps)
}
