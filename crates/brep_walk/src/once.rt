//! That no two places name one entry.

ghost use Rattle.std.specs.Prelude.{◌≡◌, ◌∷◌, ◌++◌, [], pos, IfErr, OnOk, Contains};
ghost use Rattle.brep_walk.specs.Walked.{IsFault};
ghost use Rattle.solid_data.specs.Obligations.{obligation};
ghost use Rattle.solid_data.specs.declared.verdict.Rule.TheVariants.{Twice};

use crate::fault::WalkFault;
use brep_numbering::NumberSet;
use iges_base::EntryNo;
use solid_data::{Place, Rule};

/// Notes the number at a place, which no earlier place may have named. It is that of an entry.
pub fn note(named: &mut NumberSet, at: Place, number: i64, no: EntryNo) -> Result<(), WalkFault>
    requires { number ≡ pos no.0 }
    ensures noted { OnOk result (named.new ≡ named.old ++ number ∷ []) }
    ensures holds { OnOk result (¬ Contains named.old number) }
    ensures fault { IfErr result (IsFault (obligation Twice at.entity.0 at.item
        (¬ Contains named.old number) ∷ [])) }
{
    if !named.insert(no)? {
        return Err(WalkFault::Fails(at.fails(Rule::Twice)));
    }
    Ok(())
}
