//! Whether a changed shell passes.

ghost use Rattle.std.specs.Prelude.{◌≡◌, ◌<◌, ◌≤◌, ℕ, IsTrue, IfOk, IfSome, Some, length, slice_get};
ghost use Rattle.edge_uses.specs.Before.{AreBelow};
ghost use Rattle.shell_change.specs.Matching.{EachAt};
ghost use Rattle.solid_data.specs.SolidData.{SolidData};
ghost use Rattle.change_passes.specs.Closed.{HaveClosed};
ghost use Rattle.change_passes.specs.Passes.{IsOldApart, Passes};

use crate::judging::are_closed;
use change_pieces::pieces_of;
use iges_base::NoMemory;
use shell_change::{Change, VertexName, item_at};
use solid_data::{Shell, Solid};
use solid_faults::below_shell;
use std::alloc::Global;

// The vertices of the pieces of a shell, if these are closed.
fn closed_with(
    alloc: Global,
    solid: &Solid,
    change: &Change,
    shell: &Shell,
) -> Result<Option<Vec<VertexName>>, NoMemory>
    requires { slice_get solid.now.shells change.now.shell.0 ≡ Some shell.now }
    ensures { IfOk result (λ o. IfSome o (λ vs. HaveClosed solid.now change.now vs.items)) }
{
    let Some(pieces) = pieces_of(alloc, solid, change, shell.flag)? else {
        return Ok(None);
    };
    pieces.solid.recall_numbering();
    let closed = are_closed(alloc, &pieces.solid, change.shell)?;
    if !closed {
        return Ok(None);
    }
    Ok(Some(pieces.vertices))
}

// The same, where the shell may not be there.
fn closed_vertices(
    alloc: Global,
    solid: &Solid,
    change: &Change,
) -> Result<Option<Vec<VertexName>>, NoMemory>
    ensures { IfOk result (λ o. IfSome o (λ vs. HaveClosed solid.now change.now vs.items)) }
{
    match solid.shell(change.shell) {
        None => Ok(None),
        Some(shell) => closed_with(alloc, solid, change, shell),
    }
}

fn is_apart(vertex: VertexName, below: usize) -> bool
    ensures { (s : SolidData) (k : ℕ) → AreBelow s k below → IsTrue result → IsOldApart s k vertex }
{
    match vertex {
        VertexName::Old(vertex) => vertex.0 as usize >= below,
        VertexName::New(_) => true,
    }
}

// Whether no old vertex is one of the shells before, whose vertices lie below a number.
fn are_apart(vertices: &[VertexName], below: usize) -> bool
    ensures { (s : SolidData) (k : ℕ) → AreBelow s k below → IsTrue result
        → EachAt (λ _ name. IsOldApart s k name) vertices.now }
{
    'vertices: for i in 0..vertices.len() {
        if !is_apart(*item_at(vertices, i), below) {
            return false;
        }
    }
    true
}

/// The same as `passes`, where the number is given that the vertices of the shells before the changed one lie below. It takes
/// time for the changed shell alone; `below_next` gives the number, shell by shell.
pub fn passes_before(
    alloc: Global,
    solid: &Solid,
    change: &Change,
    below: usize,
) -> Result<bool, NoMemory>
    requires { AreBelow solid.now change.now.shell.0 below }
    ensures { IfOk result (λ ok. IsTrue ok → Passes solid.now change.now) }
{
    let closed = closed_vertices(alloc, solid, change)?;
    let Some(vertices) = closed else {
        return Ok(false);
    };
    Ok(are_apart(vertices.as_slice(), below))
}

/// Whether a changed shell passes: each piece, with a face on each of its rims, is closed, and has no vertex of an earlier shell.
/// It isn't said of a change that doesn't fit. Where the shell isn't the first one, it goes once over the uses of those before.
pub fn passes(alloc: Global, solid: &Solid, change: &Change) -> Result<bool, NoMemory>
    ensures { IfOk result (λ ok. IsTrue ok → Passes solid.now change.now) }
{
    let closed = closed_vertices(alloc, solid, change)?;
    let Some(vertices) = closed else {
        return Ok(false);
    };
    let below = below_shell(alloc, solid, change.shell)?;
    Ok(are_apart(vertices.as_slice(), below))
}
