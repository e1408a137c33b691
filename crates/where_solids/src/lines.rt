//! The lines before the paragraphs.

ghost use Rattle.std.specs.Prelude.{◌≡◌, ◌++◌, OnOk, codes, option_copied};
ghost use Rattle.where_text.specs.Spelled.{space_word};
ghost use Rattle.where_solids.specs.Lines.{count_words, counted, failing_words, link_word, shell_words, shells_line, units_line, verdict_line};

use edge_uses::Rows;
use iges_base::{EntryNo, NoMemory, Out};
use iges_params::File;
use solid_data::{Failing, Shell, ShellAt, Verdict};
use solid_faults::{Linking, ShellFaults};
use where_text::{put_number, put_value, put_word};

/// A word and a number, each after a space.
pub fn put_count(out: &mut Out, word: &str, n: usize) -> Result<(), NoMemory>
    ensures { OnOk result (out.new ≡ out.old ++ counted word.now n) }
{
    put_word(out, word)?;
    put_number(out, n as u64)
}

/// The word `fail`, the rule, the entity and the place.
#[tactic(auto, unfolding(crate::specs::Lines::failing_words))]
pub fn put_failing(out: &mut Out, failing: Failing) -> Result<(), NoMemory>
    ensures { OnOk result (out.new ≡ out.old ++ failing_words failing) }
{
    out.put(b"fail")?;
    put_word(out, failing.rule.name())?;
    put_number(out, u64::from(failing.entity.0))?;
    put_number(out, u64::from(failing.place))
}

/// The line of the verdict on a solid.
#[tactic(auto, unfolding(crate::specs::Lines::verdict_line))]
pub fn put_verdict(out: &mut Out, no: EntryNo, verdict: Verdict) -> Result<(), NoMemory>
    ensures { OnOk result (out.new ≡ out.old ++ verdict_line no.0 verdict) }
{
    match verdict {
        Verdict::Closed => {
            out.put(b"closed")?;
            put_number(out, u64::from(no.0))?;
        }
        Verdict::Fails(failing) => put_failing(out, failing)?,
    }
    out.put(b"\n")
}

/// The units of the file (IGES 5.3, 2.2.4.3.14 and 2.2.4.3.15).
#[tactic(auto, unfolding(crate::specs::Lines::units_line))]
pub fn put_units(out: &mut Out, file: &File) -> Result<(), NoMemory>
    ensures { OnOk result (out.new ≡ out.old ++ units_line file.now) }
{
    let values = &file.global().values;
    out.put(b"units")?;
    put_value(out, values.get(11))?;
    put_value(out, values.get(12))?;
    out.put(b"\n")
}

/// How many shells there are, and how many of them fail.
#[tactic(auto, unfolding(crate::specs::Lines::shells_line))]
pub fn put_shells(out: &mut Out, shells: usize, failing: usize) -> Result<(), NoMemory>
    ensures { OnOk result (out.new ≡ out.old ++ shells_line shells failing) }
{
    out.put(b"shells")?;
    put_number(out, shells as u64)?;
    put_count(out, "failing", failing)?;
    out.put(b"\n")
}

#[tactic(auto, unfolding(crate::specs::Lines::shell_words))]
fn put_shell_words(out: &mut Out, at: ShellAt, shell: &Shell, rows: &Rows) -> Result<(), NoMemory>
    ensures { OnOk result (out.new ≡ out.old ++ shell_words at.0 shell.now rows.now) }
{
    out.put(b"shell")?;
    put_number(out, u64::from(at.0) + 1)?;
    put_count(out, "entity", shell.entity.0 as usize)?;
    put_count(out, "flag", usize::from(shell.flag))?;
    put_count(out, "faces", shell.faces.len())?;
    put_count(out, "edges", rows.edge_count())?;
    put_count(out, "vertices", rows.vertex_count())
}

fn put_link_word(out: &mut Out, linking: Option<&Linking>) -> Result<(), NoMemory>
    ensures { OnOk result (out.new ≡ out.old
        ++ (codes " LINK" ++ space_word (link_word (option_copied linking.entry)))) }
{
    out.put(b" LINK")?;
    match linking {
        None => put_word(out, "-"),
        Some(linking) => put_number(out, linking.unlinked().len() as u64),
    }
}

#[tactic(auto, unfolding(crate::specs::Lines::count_words))]
fn put_count_words(out: &mut Out, faults: &ShellFaults) -> Result<(), NoMemory>
    ensures { OnOk result (out.new ≡ out.old ++ count_words faults.now) }
{
    put_count(out, "JOIN", faults.gaps().len())?;
    put_count(out, "PAIR", faults.unpaired().len())?;
    put_count(out, "REACH", faults.apart_count())?;
    put_link_word(out, faults.linking())?;
    put_count(out, "APART", faults.shared().len())
}

/// The line of a shell, with its rows.
pub fn put_shell_line(
    out: &mut Out,
    at: ShellAt,
    shell: &Shell,
    rows: &Rows,
    faults: &ShellFaults,
) -> Result<(), NoMemory>
    ensures { OnOk result (out.new ≡ out.old
        ++ (shell_words at.0 shell.now rows.now ++ count_words faults.now ++ codes "\n")) }
{
    put_shell_words(out, at, shell, rows)?;
    put_count_words(out, faults)?;
    out.put(b"\n")
}
