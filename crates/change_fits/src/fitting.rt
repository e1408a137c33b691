//! Whether a change of a shell fits.

ghost use Rattle.std.specs.Prelude.{◌≡◌, ◌↔◌, ◌<◌, IsTrue, IfOk, length, slice_get};
ghost use Rattle.edge_uses.specs.ShellRows.{rows_of};
ghost use Rattle.solid_data.specs.SolidData.{SolidData};
ghost use Rattle.change_names.specs.Names.{NamesOwn};
ghost use Rattle.change_fits.specs.NewNames.{NamesNew};
ghost use Rattle.change_fits.specs.Fits.{Fits, NamesFit};

use crate::new_names::names_new;
use change_names::{are_own, uses_after};
use edge_uses::{Rows, rows};
use iges_base::NoMemory;
use shell_change::{Change, Geometry, keeps_geometry, pieces_in_order};
use solid_data::Solid;
use std::alloc::Global;

// Whether what a change names fits, where these are the rows of its shell.
fn names_fit(alloc: Global, change: &Change, rows: &Rows) -> Result<bool, NoMemory>
    ensures { (s : SolidData) → rows.now ≡ rows_of s (slice_get s.shells change.now.shell.0)
        → IfOk result (λ fit. IsTrue fit ↔ NamesFit s change.now) }
{
    let uses = uses_after(alloc, change.faces.as_slice())?;
    let own = are_own(rows, change, uses.as_slice());
    let named = names_new(alloc, uses.as_slice(), change)?;
    Ok(own && named)
}

/// The same as `fits`, where the rows of the shell are given: whoever looks at several changes of a shell lists them once.
pub fn fits_with(
    alloc: Global,
    solid: &Solid,
    geometry: &Geometry,
    change: &Change,
    rows: &Rows,
) -> Result<bool, NoMemory>
    requires { rows.now ≡ rows_of solid.now (slice_get solid.now.shells change.now.shell.0) }
    ensures { IfOk result (λ fit. IsTrue fit ↔ Fits solid.now geometry.now change.now) }
{
    if !keeps_geometry(solid, geometry, change) {
        return Ok(false);
    }
    let faces = change.faces.as_slice();
    if !pieces_in_order(faces) {
        return Ok(false);
    }
    names_fit(alloc, change, rows)
}

/// Whether a change of a shell of a solid fits: it keeps geometry, its pieces are in order, old edges and vertices that it names are
/// the shell's, and each new one is named by a use.
pub fn fits(
    alloc: Global,
    solid: &Solid,
    geometry: &Geometry,
    change: &Change,
) -> Result<bool, NoMemory>
    ensures { IfOk result (λ fit. IsTrue fit ↔ Fits solid.now geometry.now change.now) }
{
    if change.shell.0 as usize >= solid.shell_count() {
        return Ok(false);
    }
    let rows = rows(alloc, solid, change.shell)?;
    fits_with(alloc, solid, geometry, change, &rows)
}
