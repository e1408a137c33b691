//! The words of the steps of a remedy, and the sentences.

ghost use Rattle.std.specs.Prelude.{◌≡◌, ◌++◌, OnOk};
ghost use Rattle.remedy_text.specs.Sentences.{remedy_sentence, step_sentence as sentence_of, step_words as words_of, stuck_sentence};

use iges_base::{NoMemory, Out};

/// A step of a remedy.
#[derive(Clone, Copy)]
pub enum Step {
    Remove,
    Turn,
    Reverse,
    Flags,
    Sew,
    Copy,
    Renew,
    Part,
    Fill,
}

pub(crate) fn step_words(step: Step) -> &'static str
    ensures { result.now ≡ words_of step }
{
    match step {
        Step::Remove => "step remove faces",
        Step::Turn => "step turn faces",
        Step::Reverse => "step reverse loops",
        Step::Flags => "step flags uses",
        Step::Sew => "step sew seams",
        Step::Copy => "step copy vertices",
        Step::Renew => "step renew edges",
        Step::Part => "step part bodies",
        Step::Fill => "step fill rims",
    }
}

#[tactic(auto, unfolding(crate::specs::Sentences::step_sentence))]
fn step_sentence(step: Step) -> &'static str
    ensures { result.now ≡ sentence_of step }
{
    match step {
        Step::Remove => {
            "  These faces go. If they are a copy, a wall inside or left over, delete them.\n  If they are a body of their own, close it instead, and write it as a solid.\n"
        }
        Step::Turn => {
            "  The flags of these faces change in the shell: their normals point the other\n  way.\n"
        }
        Step::Reverse => {
            "  These loops run the other way: their tuples in opposite order, each edge\n  with the other flag.\n"
        }
        Step::Flags => {
            "  These tuples run the other way on their edges, and have the flags told; of a\n  loop that is reversed, before it is.\n"
        }
        Step::Sew => {
            "  Sew (join, knit, stitch) the faces at these pairs of edges: the first edge\n  stays, and uses of the second take it. sure: the ends have equal coordinates\n  and both are lines, or start, end and curve are equal. places: the ends have\n  equal coordinates; if the curves don't coincide, a face is missing between\n  them instead. curve: the curves are equal, the ends aren't: sew with a\n  tolerance.\n"
        }
        Step::Copy => {
            "  New vertices, each with the coordinates of the one told. If bodies or sides\n  touch there, each gets its own; if the touch isn't meant, part them, or let\n  them overlap.\n"
        }
        Step::Renew => {
            "  New edges, each with the curve of the one told, between these vertices or\n  new ones like them.\n"
        }
        Step::Part => {
            "  The shell falls into these bodies. Write each as a solid of its own, or, if\n  it lies inside of another, as a void of that. Bodies of a void stay voids.\n"
        }
        Step::Fill => {
            "  Each rim is a ring of edges, told by its first, on which a face must be made\n  anew. If two of these edges lie at one place, although coordinates or curves\n  differ, sew them with a tolerance instead.\n"
        }
    }
}

/// Appends the sentence of a step as facts of at most 78 columns.
pub(crate) fn put_step_sentence(out: &mut Out, step: Step) -> Result<(), NoMemory>
    ensures { OnOk result (out.new ≡ out.old ++ sentence_of step) }
{
    out.put(step_sentence(step).as_bytes())
}

const REMEDY: &str =
    "  With all changes below this shell keeps the rules, or each body that it\n  falls into does: that was tried on the records. Of several remedies the\n  records don't tell which is meant.\n";

const STUCK: &str =
    "  None of the changes that were tried makes this shell keep the rules. The\n  rules below tell where it fails.\n";

/// Appends the sentence that says what a remedy is.
#[tactic(auto, unfolding(crate::specs::Sentences::remedy_sentence))]
pub(crate) fn put_remedy_sentence(out: &mut Out) -> Result<(), NoMemory>
    ensures { OnOk result (out.new ≡ out.old ++ remedy_sentence) }
{
    out.put(REMEDY.as_bytes())
}

/// Appends the sentence on a shell without a remedy.
#[tactic(auto, unfolding(crate::specs::Sentences::stuck_sentence))]
pub(crate) fn put_stuck_sentence(out: &mut Out) -> Result<(), NoMemory>
    ensures { OnOk result (out.new ≡ out.old ++ stuck_sentence) }
{
    out.put(STUCK.as_bytes())
}
