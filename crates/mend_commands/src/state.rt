//! How a solid of a file fares before it is mended.

ghost use Rattle.mend_commands.specs.State.{IsShellState, IsStateOf};
ghost use Rattle.std.specs.Prelude.{IfOk};

use brep_walk::{WalkFault, walk};
use cert_maker::{MakeFault, certify};
use iges_base::{EntryNo, NoMemory};
use iges_params::File;
use solid_data::{Failing, Solid};
use std::alloc::Global;

/// How the shells of a solid fare whose records are right.
#[derive(Clone, Copy)]
pub enum Shells {
    Closed,
    /// One fails: the first rule that does.
    Fails(Failing),
}

/// How a solid fares.
#[derive(Clone, Copy)]
pub enum State {
    /// A record fails: the first place that does.
    Misplaced(Failing),
    Placed(Shells),
}

fn shell_state(alloc: Global, solid: &Solid) -> Result<State, NoMemory>
    ensures { IfOk result (IsShellState solid.now) }
{
    match certify(alloc, solid) {
        Ok(_) => Ok(State::Placed(Shells::Closed)),
        Err(MakeFault::Fails(failing)) => Ok(State::Placed(Shells::Fails(failing))),
        Err(MakeFault::NoMemory) => Err(NoMemory),
    }
}

pub fn state_of(alloc: Global, file: &File, no: u32) -> Result<State, NoMemory>
    ensures { IfOk result (IsStateOf file.now no) }
{
    match walk(alloc, file, EntryNo(no)) {
        Ok(solid) => shell_state(alloc, &solid),
        Err(WalkFault::Fails(failing)) => Ok(State::Misplaced(failing)),
        Err(WalkFault::NoMemory) => Err(NoMemory),
    }
}
