//! Flags for the faces of a shell, or a ring that no flags satisfy.

ghost use Rattle.std.specs.Prelude.{◌≡◌, ◌<◌, Bool, List, length, IfOk, IfErr, OnOk};
ghost use Rattle.orient_certificate.specs.declared.fault.OrientFailing.{OrientFailing as Named};
ghost use Rattle.orient_certificate.specs.Partners.{AllHaveTwoRows, AllReached};
ghost use Rattle.orient_certificate.specs.Flags.{rows_at, FlagsFit};
ghost use Rattle.orient_certificate.specs.Outcome.{IsOrientation, IsFirstFailing, IsFault, IsNoMemory, FailsSo};

use crate::finding::{first_unreached, found};
use crate::flag_walk::FlagWalk;
use crate::naming::unreached;
use orient_certificate::{OrientFault, Orientation, graph_of};
use solid_data::{ShellAt, Solid};
use std::alloc::Global;

// Flags or a ring, once each edge has two rows and each face is reached.
fn oriented(alloc: Global, solid: &Solid, shell: ShellAt) -> Result<Orientation, OrientFault>
    requires { shell.0 < length solid.now.shells }
    ensures found { IfOk result (IsOrientation solid.now shell.0) }
    ensures two { OnOk result (AllHaveTwoRows (rows_at solid.now shell.0)) }
    ensures reached { OnOk result (AllReached (rows_at solid.now shell.0)) }
    ensures fault { IfErr result (IsFault (IsFirstFailing solid.now shell.0)) }
{
    let graph = graph_of(alloc, solid, shell)?;
    let crossings = graph.crossings.as_slice();
    let walk = FlagWalk::of(alloc, crossings, graph.faces, graph.first)?;
    if let Some(face) = first_unreached(&walk, crossings, graph.faces, graph.first) {
        let shell = solid.shell(shell).unwrap();
        return Err(OrientFault::Fails(unreached(shell, face)));
    }
    Ok(found(alloc, crossings, &walk, graph.faces, graph.first)?)
}

/// Flags for the faces of a shell, the first face's its own, under which the two rows of each edge run in opposite
/// directions; or a ring of rows that no flags satisfy. Where an edge hasn't exactly two rows, or else a face isn't
/// reached over such pairs, the first that fails is named.
pub fn orient(alloc: Global, solid: &Solid, shell: ShellAt) -> Result<Orientation, OrientFault>
    requires { shell.0 < length solid.now.shells }
    ensures found { IfOk result (IsOrientation solid.now shell.0) }
    ensures two { OnOk result (AllHaveTwoRows (rows_at solid.now shell.0)) }
    ensures reached { OnOk result (AllReached (rows_at solid.now shell.0)) }
    ensures fault { IfErr result (IsFault (IsFirstFailing solid.now shell.0)) }
    ensures only { AllHaveTwoRows (rows_at solid.now shell.0)
        → AllReached (rows_at solid.now shell.0) → IfErr result IsNoMemory }
    ensures only_fault { (x : Named) → IsFirstFailing solid.now shell.0 x → FailsSo x result }
    ensures only_flags { (x : List Bool) → FlagsFit solid.now shell.0 x
        → IfOk result (λ o. o ≡ Orientation.Flags x) }
{
    oriented(alloc, solid, shell)
}
