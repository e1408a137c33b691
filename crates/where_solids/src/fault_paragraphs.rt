//! The paragraphs of the rules that fail in a shell.

ghost use Rattle.edge_uses.specs.ShellRows.{EndsMeet};
ghost use Rattle.solid_faults.specs.Edges.{unpaired_of};
ghost use Rattle.std.specs.Prelude.{◌≡◌, ◌++◌, [], IfOk, IfSome, IsSome, OnOk, option_copied};
ghost use Rattle.where_shells.specs.Viewed.{HasFaces, HasRows, HasShell};
ghost use Rattle.where_solids.specs.Viewed.{AreFans, AreFaults, ArePaired, RowsMeet, fault_faces, fault_paragraphs, linking_named, linking_text};

use edge_uses::{PairFault, Paired, Rows, pair};
use iges_base::NoMemory;
use solid_faults::{Linking, ShellFaults};
use std::alloc::Global;
use where_shells::{Page, ShellView, put_apart, put_join, put_link, put_pair, put_reach};

// The rows with their mates, where loops join and edges are paired.
fn paired_rows(alloc: Global, rows: &Rows) -> Result<Paired<'_>, NoMemory>
    requires meet { EndsMeet rows.now }
    requires paired { unpaired_of rows.now ≡ [] }
    ensures { IfOk result (λ paired. paired ≡ rows.now) }
{
    match pair(alloc, rows) {
        Ok(paired) => Ok(paired),
        Err(PairFault::NoMemory) => Err(NoMemory),
        Err(PairFault::Unpaired(_)) => unreachable!(),
    }
}

// The vertices that aren't linked, where fans are judged.
fn put_linking(
    alloc: Global,
    page: &mut Page,
    view: &ShellView<'_>,
    linking: Option<&Linking>,
) -> Result<(), NoMemory>
    requires shell { HasShell view.now }
    requires rows { HasRows view.now }
    requires meet { IsSome linking → RowsMeet view.now }
    requires paired { IsSome linking → ArePaired view.now }
    requires fans { IfSome linking (λ l. AreFans view.now l.now.leasts) }
    ensures text { OnOk result (page.new.out ≡ page.old.out
        ++ linking_text view.now (option_copied linking.entry)) }
    ensures named { OnOk result (page.new.named ≡ page.old.named
        ++ linking_named view.now (option_copied linking.entry)) }
{
    let Some(linking) = linking else {
        return Ok(());
    };
    let paired = paired_rows(alloc, view.rows)?;
    put_link(alloc, page, view, &paired, linking)
}

/// The paragraphs of the rules that fail in a shell, in the order of the rules.
#[tactic(auto, unfolding(crate::specs::ShellTexts::fault_paragraphs, crate::specs::ShellTexts::fault_faces))]
pub fn put_faults(
    alloc: Global,
    page: &mut Page,
    view: &ShellView<'_>,
    faults: &ShellFaults,
) -> Result<(), NoMemory>
    requires shell { HasShell view.now }
    requires rows { HasRows view.now }
    requires faces { HasFaces view.now }
    requires faults { AreFaults view.now faults.now }
    ensures text { OnOk result (page.new.out ≡ page.old.out
        ++ fault_paragraphs view.now faults.now) }
    ensures named { OnOk result (page.new.named ≡ page.old.named
        ++ fault_faces view.now faults.now) }
{
    let unpaired = faults.unpaired();
    put_join(page, view, faults.gaps())?;
    put_pair(alloc, page, view, unpaired)?;
    put_reach(alloc, page, view, faults.firsts(), unpaired)?;
    put_linking(alloc, page, view, faults.linking())?;
    put_apart(page, view, faults.shared())
}
