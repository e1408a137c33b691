//! Lines on edges, faces and vertices.

ghost use Rattle.brep_lists.specs.Record.{int_at};
ghost use Rattle.iges_params.specs.Named.{values_of};
ghost use Rattle.std.specs.Prelude.{◌≡◌, ◌≤◌, ◌<◌, ◌+◌, ◌-◌, ◌*◌, ◌^◌, ◌++◌, ◌∷◌, [], OnOk, flat_map, pos};
ghost use Rattle.where_shells.specs.Lines.{count_words, curve_of, curve_words, edge_words, head_lines, rule_words};
ghost use Rattle.where_shells.specs.Viewed.{face_line, face_words, vertex_line, vertex_named};

use crate::view::{Page, ShellView};
use brep_lists::int_at;
use iges_base::{EntryNo, NoMemory, Out};
use iges_params::File;
use solid_data::{EdgeKey, Rule, ShellAt, VertexId};
use where_text::{put_number, put_rule_sentence, put_signed, put_type, put_word};

/// A word, and how many.
pub fn put_count(out: &mut Out, word: &str, n: usize) -> Result<(), NoMemory>
    ensures { OnOk result (out.new ≡ out.old ++ count_words word.now n) }
{
    out.put(word.as_bytes())?;
    put_number(out, n as u64)
}

/// The head of a rule's paragraph, up to how often it fails in the shell.
pub fn put_rule(out: &mut Out, rule: Rule, shell: ShellAt, faults: usize) -> Result<(), NoMemory>
    ensures { OnOk result (out.new ≡ out.old ++ rule_words rule shell.0 faults) }
{
    out.put(b"\nrule")?;
    put_word(out, rule.name())?;
    put_count(out, " shell", shell.0 as usize + 1)?;
    put_count(out, " faults", faults)
}

/// The whole head of a rule's paragraph.
#[tactic(auto, unfolding(crate::specs::Lines::head_lines))]
pub fn put_head(out: &mut Out, rule: Rule, shell: ShellAt, faults: usize) -> Result<(), NoMemory>
    ensures { OnOk result (out.new ≡ out.old ++ head_lines rule shell.0 faults) }
{
    put_rule(out, rule, shell, faults)?;
    out.put(b"\n")?;
    put_rule_sentence(out, rule)
}

/// An edge: the number of its list, and its index there.
pub fn put_edge_words(out: &mut Out, key: EdgeKey) -> Result<(), NoMemory>
    ensures { OnOk result (out.new ≡ out.old ++ edge_words key) }
{
    put_number(out, u64::from(key.list.0))?;
    put_number(out, u64::from(key.index))
}

// The directory number of an edge's curve; 0 where the list's record gives none.
fn curve_of(file: &File, key: EdgeKey) -> i64
    ensures { result ≡ curve_of file.now key }
{
    let place = (5 * key.index as usize).saturating_sub(4);
    match file.values(key.list) {
        Some(values) => int_at(values, place),
        None => 0,
    }
}

/// The curve of an edge: its number, and its type.
#[tactic(auto, unfolding(crate::specs::Lines::curve_words))]
pub fn put_curve_words(out: &mut Out, file: &File, key: EdgeKey) -> Result<(), NoMemory>
    ensures { OnOk result (out.new ≡ out.old ++ curve_words file.now key) }
{
    let curve = curve_of(file, key);
    out.put(b" curve")?;
    put_signed(out, curve)?;
    put_type(out, file, curve)
}

/// The words of a vertex.
pub fn put_vertex(out: &mut Out, view: &ShellView<'_>, vertex: VertexId) -> Result<(), NoMemory>
    ensures { OnOk result (out.new ≡ out.old ++ vertex_named view.now vertex.0) }
{
    view.spelled.put_vertex(out, vertex)
}

/// The words of a face, which joins those that are named.
pub fn put_face(page: &mut Page, view: &ShellView<'_>, face: EntryNo) -> Result<(), NoMemory>
    ensures text { OnOk result (page.new.out ≡ page.old.out ++ face_words view.now face) }
    ensures named { OnOk result (page.new.named ≡ page.old.named ++ face ∷ []) }
{
    view.spelled.put_face(&mut page.out, &mut page.named, face)
}

/// A vertex after a word.
#[tactic(auto, unfolding(crate::specs::Lines::vertex_line))]
pub fn put_vertex_line(
    out: &mut Out,
    view: &ShellView<'_>,
    word: &str,
    vertex: u32,
) -> Result<(), NoMemory>
    ensures { OnOk result (out.new ≡ out.old ++ vertex_line word.now view.now vertex) }
{
    out.put(word.as_bytes())?;
    put_vertex(out, view, VertexId(vertex))?;
    out.put(b"\n")
}

/// A face, which joins those that are named.
#[tactic(auto, unfolding(crate::specs::Lines::face_line))]
pub fn put_face_line(page: &mut Page, view: &ShellView<'_>, face: EntryNo) -> Result<(), NoMemory>
    ensures text { OnOk result (page.new.out ≡ page.old.out ++ face_line view.now face) }
    ensures named { OnOk result (page.new.named ≡ page.old.named ++ face ∷ []) }
{
    page.out.put(b"  face")?;
    put_face(page, view, face)?;
    page.out.put(b"\n")
}
