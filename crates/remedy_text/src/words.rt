//! Words that lines share, and the head of a step.

ghost use Rattle.std.specs.Prelude.{◌≡◌, ◌++◌, ◌∷◌, [], OnOk};
ghost use Rattle.remedy_text.specs.Lines.{number_words, step_head};
ghost use Rattle.remedy_text.specs.Viewed.{edge_words, face_words, vertex_named};

use crate::sentences::{Step, put_step_sentence, step_words};
use crate::view::RemedyView;
use iges_base::{EntryNo, NoMemory, Out};
use solid_data::{EdgeId, VertexId};
use where_text::{EntryNumbers, put_number};

/// A word, and how many.
pub(crate) fn put_count(out: &mut Out, word: &str, n: usize) -> Result<(), NoMemory>
    ensures { OnOk result (out.new ≡ out.old ++ number_words word.now n) }
{
    out.put(word.as_bytes())?;
    put_number(out, n as u64)
}

/// The line of a step of so many items, and its sentence; nothing where there are none.
#[tactic(auto, unfolding(crate::specs::Lines::step_head))]
pub(crate) fn put_step_head(out: &mut Out, step: Step, n: usize) -> Result<(), NoMemory>
    ensures { OnOk result (out.new ≡ out.old ++ step_head step n) }
{
    if n == 0 {
        return Ok(());
    }
    put_count(out, step_words(step), n)?;
    out.put(b"\n")?;
    put_step_sentence(out, step)
}

/// The words of a face, which joins those that are named.
pub(crate) fn put_face(
    out: &mut Out,
    named: &mut EntryNumbers,
    view: &RemedyView<'_>,
    face: EntryNo,
) -> Result<(), NoMemory>
    ensures text { OnOk result (out.new ≡ out.old ++ face_words view.now face) }
    ensures named { OnOk result (named.new ≡ named.old ++ face ∷ []) }
{
    view.spelled.put_face(out, named, face)
}

/// The words of a vertex.
pub(crate) fn put_vertex(
    out: &mut Out,
    view: &RemedyView<'_>,
    vertex: VertexId,
) -> Result<(), NoMemory>
    ensures { OnOk result (out.new ≡ out.old ++ vertex_named view.now vertex.0) }
{
    view.spelled.put_vertex(out, vertex)
}

/// An edge: its list, and its index there.
pub(crate) fn put_edge(out: &mut Out, view: &RemedyView<'_>, edge: EdgeId) -> Result<(), NoMemory>
    ensures { OnOk result (out.new ≡ out.old ++ edge_words view.now edge) }
{
    let key = view.solid.edge_key(edge);
    out.put(b" edge")?;
    put_number(out, u64::from(key.list.0))?;
    put_number(out, u64::from(key.index))
}
