//! Numbers and flags that are put at the end of values.

ghost use Rattle.iges_fields.specs.declared.value.Value.TheVariants as value;
ghost use Rattle.changed_records.specs.Values.{flag_value, number_value};
ghost use Rattle.std.specs.Prelude.{◌≡◌, ◌∷◌, ◌++◌, [], OnOk};

use iges_base::NoMemory;
use iges_fields::{Value, Values};

/// Puts a number.
pub fn push_number(list: &mut Values, number: u32) -> Result<(), NoMemory>
    ensures { OnOk result (list.new ≡ list.old ++ number_value number ∷ []) }
{
    list.push(Value::Int(i64::from(number)))
}

/// Puts a flag.
pub(crate) fn push_flag(list: &mut Values, flag: bool) -> Result<(), NoMemory>
    ensures { OnOk result (list.new ≡ list.old ++ flag_value flag ∷ []) }
{
    let number = if flag { 1 } else { 0 };
    list.push(Value::Int(number))
}
