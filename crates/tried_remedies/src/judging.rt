//! Whether a remedy that was found fits and passes.

ghost use Rattle.std.specs.Prelude.{◌≡◌, ◌↔◌, ◌≤◌, ◌<◌, IsTrue, IfOk, length, slice_get};
ghost use Rattle.edge_uses.specs.Before.{AreBelow};
ghost use Rattle.edge_uses.specs.ShellRows.{rows_of};
ghost use Rattle.tried_remedies.specs.Tried.{IsTried, AreTried};

use change_fits::fits_with;
use change_passes::passes_before;
use edge_uses::{Rows, rows};
use iges_base::{ItemList, NoMemory};
use remedy_search::search;
use shell_change::{Geometry, Known, Remedy};
use solid_data::{ShellAt, Solid};
use solid_faults::below_shell;
use std::alloc::Global;

fn is_of(remedy: &Remedy, shell: ShellAt) -> bool
    ensures { IsTrue result ↔ (remedy.now.change.shell ≡ shell) }
{
    remedy.change.shell.0 == shell.0
}

// A shell: its number, its rows, and the number that the vertices of the shells before it lie below.
#[derive(Clone, Copy)]
struct Searched<'a> {
    number: ShellAt,
    rows: &'a Rows,
    below: usize,
}

fn is_tried(
    alloc: Global,
    solid: &Solid,
    geometry: &Geometry,
    shell: Searched<'_>,
    remedy: &Remedy,
) -> Result<bool, NoMemory>
    requires rows { shell.rows.now ≡ rows_of solid.now (slice_get solid.now.shells shell.number.0) }
    requires below { AreBelow solid.now shell.number.0 shell.below }
    ensures { IfOk result (λ tried. IsTrue tried
        → IsTried solid.now geometry.now shell.entry.number remedy.now) }
{
    if !is_of(remedy, shell.number) {
        return Ok(false);
    }
    let fit = fits_with(alloc, solid, geometry, &remedy.change, shell.rows)?;
    if !fit {
        return Ok(false);
    }
    let pass = passes_before(alloc, solid, &remedy.change, shell.below)?;
    Ok(pass)
}

// The remedies of a shell that the solid has.
fn tried_of(
    alloc: Global,
    solid: &Solid,
    known: &Known,
    shell: Searched<'_>,
) -> Result<ItemList<Remedy>, NoMemory>
    requires rows { shell.rows.now ≡ rows_of solid.now (slice_get solid.now.shells shell.number.0) }
    requires below { AreBelow solid.now shell.number.0 shell.below }
    ensures { IfOk result (λ remedies. AreTried solid.now known.now.geometry shell.entry.number remedies) }
{
    let found = search(alloc, solid, known, shell.number, shell.rows, shell.below)?;
    let mut tried = ItemList::new(alloc);
    'found: for remedy in found {
        let good = is_tried(alloc, solid, &known.geometry, shell, &remedy)?;
        if good {
            tried.push(remedy)?;
        }
    }
    Ok(tried)
}

/// The same as `tried_remedies`, where the number is given that the vertices of the shells before this one lie below: whoever
/// goes over the shells carries it, and each takes time for itself alone.
pub fn tried_before(
    alloc: Global,
    solid: &Solid,
    known: &Known,
    shell: ShellAt,
    below: usize,
) -> Result<ItemList<Remedy>, NoMemory>
    requires { AreBelow solid.now shell.0 below }
    ensures { IfOk result (λ remedies. AreTried solid.now known.now.geometry shell remedies) }
{
    if shell.0 as usize >= solid.shell_count() {
        return Ok(ItemList::new(alloc));
    }
    let rows = rows(alloc, solid, shell)?;
    let searched = Searched {
        number: shell,
        rows: &rows,
        below,
    };
    tried_of(alloc, solid, known, searched)
}

/// The remedies of a shell that fit and pass, the cheapest first, at most six. What the search proposes and a judge refuses is
/// left out. There are none of a shell that the solid hasn't got.
pub fn tried_remedies(
    alloc: Global,
    solid: &Solid,
    known: &Known,
    shell: ShellAt,
) -> Result<ItemList<Remedy>, NoMemory>
    ensures { IfOk result (λ remedies. AreTried solid.now known.now.geometry shell remedies) }
{
    if shell.0 as usize >= solid.shell_count() {
        return Ok(ItemList::new(alloc));
    }
    let below = below_shell(alloc, solid, shell)?;
    tried_before(alloc, solid, known, shell, below)
}
