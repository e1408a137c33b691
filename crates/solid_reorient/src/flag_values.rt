//! The flags in the values of a shell's record.

ghost use Rattle.solid_reorient.specs.Reflagged.{flag_value, values_with};
ghost use Rattle.std.specs.Prelude.{◌≡◌, ◌≤◌, if◌then◌else◌, length, pos, set};
ghost use Rattle.iges_base.specs.declared.TheConstants.{FILE_LIMIT};

use iges_fields::{Value, Values};

fn flag_number(flag: bool) -> i64
    ensures { result ≡ if flag then pos 1 else pos 0 }
{
    if flag { 1 } else { 0 }
}

// Puts the flag in place of a value, counted from 0, if there is one.
fn set_flag(values: &mut Values, place: usize, flag: bool)
    ensures { values.new ≡ set values.old place (flag_value flag) }
{
    if place < values.len() {
        values.set(place, Value::Int(flag_number(flag)));
    }
}

/// Puts flags in place of those of a shell's faces (IGES 5.3, 4.149).
pub fn set_flags(values: &mut Values, flags: &[bool])
    ensures { values.new ≡ values_with flags.now values.old }
{
    'flags: for k in 0..flags.len() {
        set_flag(values, 2 * k + 2, flags[k]);
    }
}
