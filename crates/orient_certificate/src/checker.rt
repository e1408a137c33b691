//! The checker of flags and rings.

use crate::checking::{is_odd_walk, suit};
use crate::fault::OrientFault;
use crate::graph::{Graph, graph_of};
use crate::lists::FlagList;
use solid_data::{RowList, ShellAt, Solid};
use std::alloc::Global;
use std::marker::Model;

/// Judges flags and rings of one shell of a solid. It takes all its memory when it is made.
#[derive(Drop)]
pub struct OrientChecker<'a> {
    solid: &'a Solid,
    shell: ShellAt,
    graph: Graph,
}

impl<'a> Model for OrientChecker<'a> {
    ghost use Rattle.orient_certificate.specs.Checked.{ShellOf};

    ghost Value = { ShellOf };

    ghost view = { λ c. record { solid = c.solid.now; shell = c.shell.0 } };

    ghost use Rattle.orient_certificate.specs.Graph.{IsGraphOf};

    ghost invariant = { λ c. IsGraphOf c.solid.now c.shell.0 c.graph.crossings.items c.graph.faces c.graph.first };
}

impl<'a> OrientChecker<'a> {
    ghost use Rattle.std.specs.Prelude.{◌≡◌, ◌<◌, ◌↔◌, IsTrue, length, IfOk, IfErr, OnOk};
    ghost use Rattle.orient_certificate.specs.declared.fault.OrientFailing.{OrientFailing as Named};
    ghost use Rattle.orient_certificate.specs.Partners.{AllHaveTwoRows};
    ghost use Rattle.orient_certificate.specs.Flags.{rows_at, FlagsFit};
    ghost use Rattle.orient_certificate.specs.OddRing.{OddRing, row_numbers};
    ghost use Rattle.orient_certificate.specs.Outcome.{CountFails, IsFault, IsNoMemory, FailsSo};

    // A checker for this shell; it errs where an edge hasn't exactly two rows.
    fn made(
        alloc: Global,
        solid: &'a Solid,
        shell: ShellAt,
    ) -> Result<OrientChecker<'a>, OrientFault>
        requires { shell.0 < length solid.now.shells }
        ensures about { IfOk result (λ c. c ≡ record { solid = solid.now; shell = shell.0 }) }
        ensures two { OnOk result (AllHaveTwoRows (rows_at solid.now shell.0)) }
        ensures fault { IfErr result (IsFault (CountFails solid.now shell.0)) }
    {
        let graph = graph_of(alloc, solid, shell)?;
        Ok(OrientChecker {
            solid,
            shell,
            graph,
        })
    }

    /// A checker of a shell, or the first edge that hasn't exactly two rows.
    pub fn new(
        alloc: Global,
        solid: &'a Solid,
        shell: ShellAt,
    ) -> Result<OrientChecker<'a>, OrientFault>
        requires { shell.0 < length solid.now.shells }
        ensures about { IfOk result (λ c. c ≡ record { solid = solid.now; shell = shell.0 }) }
        ensures two { OnOk result (AllHaveTwoRows (rows_at solid.now shell.0)) }
        ensures fault { IfErr result (IsFault (CountFails solid.now shell.0)) }
        ensures only { AllHaveTwoRows (rows_at solid.now shell.0) → IfErr result IsNoMemory }
        ensures only_fault { (x : Named) → CountFails solid.now shell.0 x → FailsSo x result }
    {
        OrientChecker::made(alloc, solid, shell)
    }

    /// Whether the flags are one for each face, the first one the first face's own, and the two rows of each edge run in
    /// opposite directions under them. It takes no memory.
    pub fn flags(&self, x: &FlagList) -> bool
        ensures { IsTrue result ↔ FlagsFit self.now.solid self.now.shell x.now }
    {
        let graph = &self.graph;
        suit(
            graph.crossings.as_slice(),
            graph.faces,
            graph.first,
            x.as_slice(),
        )
    }

    /// Whether each row goes on in the face of the partner of the one before, the first in that of the last's, and an odd
    /// number of them run as their partners do, by the flags of their loops' tuples alone. It takes no memory.
    pub fn ring(&self, rows: &RowList) -> bool
        ensures { IsTrue result ↔ OddRing self.now.solid self.now.shell (row_numbers rows.now) }
    {
        is_odd_walk(self.graph.crossings.as_slice(), rows.as_slice())
    }
}
