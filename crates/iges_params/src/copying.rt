//! Copies of values and of a file's front.

ghost use Rattle.iges_fields.specs.InLine.{is_value};
ghost use Rattle.std.specs.Prelude.{◌≡◌, ◌+◌, ◌∷◌, ◌++◌, [], IfOk, IsTrue, OnOk, drop, take};

use crate::file::File;
use crate::global::Global26;
use iges_base::NoMemory;
use iges_fields::{Value, Values};
use std::alloc::Global;

fn push_copy(list: &mut Values, alloc: Global, value: &Value) -> Result<(), NoMemory>
    requires { IsTrue (is_value value.now) }
    ensures { OnOk result (list.new ≡ list.old ++ value.now ∷ []) }
{
    match value {
        Value::Default => list.push(Value::Default),
        Value::Int(n) => list.push(Value::Int(*n)),
        _ => {
            let copy = value.copy(alloc)?;
            list.push(copy)
        }
    }
}

/// Puts copies of so many values from a place on, as far as they are there.
pub fn push_copies(
    list: &mut Values,
    alloc: Global,
    values: &Values,
    from: usize,
    count: usize,
) -> Result<(), NoMemory>
    ensures { OnOk result (list.new ≡ list.old ++ take count (drop from values.now)) }
{
    let left = values.len().saturating_sub(from);
    let end = count.min(left);
    'values: for i in 0..end {
        push_copy(list, alloc, values.get(from + i).unwrap())?;
    }
    Ok(())
}

/// A copy of values.
pub fn copied_values(alloc: Global, values: &Values) -> Result<Values, NoMemory>
    ensures { IfOk result (λ list. list ≡ values.now) }
{
    let mut list = Values::with_room(alloc, values.len())?;
    push_copies(&mut list, alloc, values, 0, values.len())?;
    Ok(list)
}

fn copied_global(alloc: Global, global: &Global26) -> Result<Global26, NoMemory>
    ensures { IfOk result (λ copy. copy ≡ global.now) }
{
    Ok(Global26 {
        delims: global.delims,
        values: copied_values(alloc, &global.values)?,
    })
}

/// A file with the start lines and the global of another, and no entry.
pub fn begun(alloc: Global, file: &File) -> Result<File, NoMemory>
    ensures { IfOk result (λ new. new ≡ record file.now { entries = [] }) }
{
    let count = file.start_count();
    let global = copied_global(alloc, file.global())?;
    let mut new = File::new(alloc, file.start(0).unwrap(), global)?;
    'lines: for i in 1..count {
        new.push_start(file.start(i).unwrap())?;
    }
    Ok(new)
}
