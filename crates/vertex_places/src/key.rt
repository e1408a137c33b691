//! The keys of a vertex's coordinates.

ghost use Rattle.std.specs.Prelude.{◌≡◌, ◌+◌, ◌-◌, ◌*◌, ◌<◌, ◌++◌, IfOk, OnOk, option_copied, unwrap_or};
ghost use Rattle.equal_values.specs.Keys.{key_of};
ghost use Rattle.vertex_places.specs.Places.{coordinate};
ghost use Rattle.vertex_places.specs.Firsts.{place_key};

use equal_values::put_key;
use iges_base::NoMemory;
use iges_fields::Value;
use iges_params::File;
use solid_data::VertexKey;
use std::alloc::Global;

/// Appends the key of a value, which is a default where there is none.
pub fn put_value(alloc: Global, key: &mut Vec<u8>, value: Option<&Value>) -> Result<(), NoMemory>
    ensures { OnOk result (key.new.items
        ≡ key.old.items ++ key_of (unwrap_or (option_copied value.entry) Value.Default)) }
{
    match value {
        Some(value) => put_key(alloc, key, value),
        None => put_key(alloc, key, &Value::Default),
    }
}

// Appends the key of one of the three coordinates, from 0.
#[tactic(auto, unfolding(crate::specs::Places::coordinate))]
fn put_coordinate(
    alloc: Global,
    key: &mut Vec<u8>,
    file: &File,
    vertex: VertexKey,
    axis: usize,
) -> Result<(), NoMemory>
    requires { axis < 3 }
    ensures { OnOk result (key.new.items ≡ key.old.items ++ key_of (coordinate file.now vertex axis)) }
{
    let place = (3 * vertex.index as usize + axis).saturating_sub(2);
    match file.values(vertex.list) {
        Some(values) => put_value(alloc, key, values.get(place)),
        None => put_value(alloc, key, None),
    }
}

/// The keys of the three coordinates of a vertex, one behind the other.
pub fn key_of_place(alloc: Global, file: &File, vertex: VertexKey) -> Result<Vec<u8>, NoMemory>
    ensures { IfOk result (λ key. key.items ≡ place_key file.now vertex) }
{
    let mut key = Vec::new(alloc);
    put_coordinate(alloc, &mut key, file, vertex, 0)?;
    put_coordinate(alloc, &mut key, file, vertex, 1)?;
    put_coordinate(alloc, &mut key, file, vertex, 2)?;
    Ok(key)
}
