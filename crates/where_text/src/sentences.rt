//! The sentences of rules and of reasons.

ghost use Rattle.std.specs.Prelude.{◌≡◌, ◌++◌, OnOk};
ghost use Rattle.where_text.specs.Sentences.{reason_sentence, rule_sentence};

use iges_base::{NoMemory, Out};
use iges_lines::Reason;
use solid_data::Rule;

#[tactic(auto, unfolding(crate::specs::Sentences::rule_sentence))]
fn rule_sentence(rule: Rule) -> &'static str
    ensures { result.now ≡ rule_sentence rule }
{
    match rule {
        Rule::NoEntry => { "  The number at this place names no entity of the file.\n" }
        Rule::WrongKind => {
            "  The entity at this place isn't of the type and form that is due here.\n"
        }
        Rule::BadLayout => {
            "  The values of this record aren't laid out as its type's: the value named is\n  the first that can't stand there.\n"
        }
        Rule::Twice => { "  This shell, face or loop is named a second time in the solid.\n" }
        Rule::BadIndex => { "  The index at this place is outside of its list.\n" }
        Rule::BadGeometry => { "  A curve or a surface is due at this place.\n" }
        Rule::Unjoined => {
            "  The uses of a loop must join end to start. Here one ends at another vertex\n  than the next one starts at.\n"
        }
        Rule::Unpaired => {
            "  Each edge of a closed shell is used by faces twice, once along it and once\n  against it. These aren't.\n"
        }
        Rule::Unreached => {
            "  A shell is one connected set of faces. This one falls into parts that share\n  no edge.\n"
        }
        Rule::Unlinked => {
            "  Round each vertex of a closed shell the faces form one fan. Here several\n  fans touch at a vertex only.\n"
        }
        Rule::Shared => { "  Two shells of a solid share no vertex. These do.\n" }
    }
}

#[tactic(auto, unfolding(crate::specs::Sentences::reason_sentence))]
fn reason_sentence(reason: Reason) -> &'static str
    ensures { result.now ≡ reason_sentence reason }
{
    match reason {
        Reason::NotFixed => {
            "  The file is in the binary or the compressed form. Export it in the fixed\n  ASCII form.\n"
        }
        Reason::Length => {
            "  Each line has 80 columns and an end of line. This one doesn't: an editor, a\n  mail program or a transfer in text mode may have cut or joined lines.\n"
        }
        Reason::Letter => {
            "  Column 73 must hold the section's letter S, G, D, P or T, in this order.\n"
        }
        Reason::Number => { "  Columns 74 to 80 must hold the line's number in its section.\n" }
        Reason::Counts => { "  The last line must tell how many lines each section has.\n" }
        Reason::Missing => {
            "  A section is missing, or the file ends before its T line: it was cut off.\n"
        }
        Reason::After => { "  Something stands behind the T line.\n" }
        Reason::Unpaired => { "  A directory entry has two lines; the last one has one only.\n" }
        Reason::Field => { "  A field of the directory entry isn't a number.\n" }
        Reason::TypesDiffer => { "  The two lines of the entry tell different types.\n" }
        Reason::Range => { "  The entry points to parameter lines that aren't there.\n" }
        Reason::Delimiter => { "  The global names no two good delimiters.\n" }
        Reason::GlobalValue => {
            "  A value of the global isn't spelled rightly; often a text whose count before\n  the H is wrong.\n"
        }
        Reason::GlobalKind => { "  A value of the global is of another kind than is due.\n" }
        Reason::BackPointer => {
            "  Columns 66 to 72 must hold the number of the entry that owns the line.\n"
        }
        Reason::RecordValue => {
            "  A value of the record isn't spelled rightly: a text whose count before the H\n  is wrong, a number with a blank in it, or no record delimiter.\n"
        }
        Reason::RecordType => {
            "  The record doesn't begin with the type that its directory entry tells.\n"
        }
    }
}

/// Appends the sentence of a rule as facts of at most 78 columns.
pub fn put_rule_sentence(out: &mut Out, rule: Rule) -> Result<(), NoMemory>
    ensures text { OnOk result (out.new ≡ out.old ++ rule_sentence rule) }
{
    out.put(rule_sentence(rule).as_bytes())
}

/// Appends the sentence of a reason for which a file is refused, as facts of at most 78 columns.
pub fn put_reason_sentence(out: &mut Out, reason: Reason) -> Result<(), NoMemory>
    ensures text { OnOk result (out.new ≡ out.old ++ reason_sentence reason) }
{
    out.put(reason_sentence(reason).as_bytes())
}
