//! The fans of rows round the vertices of a shell.

ghost use Rattle.std.specs.Prelude.{◌≡◌, ◌<◌, ◌++◌, ◌∷◌, [], ◌^◌, length, IfOk};
ghost use Rattle.edge_uses.specs.Mates.{ArePaired};
ghost use Rattle.solid_faults.specs.Fans.{AreFans};
ghost use Rattle.solid_faults.specs.TurnPairs.{AreTurns};

use crate::part::push_pair;
use edge_uses::{Paired, turned};
use iges_base::NoMemory;
use shell_components::components;
use std::alloc::Global;

// Each row with the row that it turns to.
fn turns_of(alloc: Global, paired: &Paired<'_>) -> Result<Vec<(u32, u32)>, NoMemory>
    ensures { IfOk result (λ pairs. AreTurns paired.now pairs.items) }
{
    let mut out = Vec::new(alloc);
    'rows: for i in 0..paired.rows().len() {
        push_pair(&mut out, i as u32, turned(paired, i as u32))?;
    }
    Ok(out)
}

/// For each row the least row of its fan: of the rows that turns lead to from it.
pub fn fan_leasts(alloc: Global, paired: &Paired<'_>) -> Result<Vec<u32>, NoMemory>
    ensures { IfOk result (λ leasts. AreFans paired.now leasts.items) }
{
    let pairs = turns_of(alloc, paired)?;
    components(alloc, paired.rows().len(), pairs.as_slice())
}
