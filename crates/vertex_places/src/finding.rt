//! The first vertex at each place.

ghost use Rattle.std.specs.Prelude.{◌≡◌, ◌+◌, ◌<◌, ℕ, List, All, Some, IfOk, length, slice_get};
ghost use Rattle.std.specs.BTreeMap.{get_by};
ghost use Rattle.std.specs.Cmp.Lexicographic.{slice_cmp};
ghost use Rattle.std.specs.Ordering.{nat_cmp};
ghost use Rattle.solid_data.specs.Ring.{place_of};
ghost use Rattle.vertex_places.specs.Firsts.{AreFirsts, same_key};
ghost use Rattle.vertex_places.specs.Places.{ArePlaces};

use crate::key::key_of_place;
use iges_base::NoMemory;
use iges_params::File;
use solid_data::VertexKey;
use std::alloc::Global;
use std::collections::BTreeMap;

// The first vertex with this key.
fn first_with(firsts: &BTreeMap<Vec<u8>, u32>, key: &Vec<u8>) -> Option<u32>
    ensures { result ≡ get_by (λ k. slice_cmp nat_cmp key.now.items k.items) firsts.now }
{
    firsts.get(key).copied()
}

// The first vertex with the same key, which may be this one itself. It's kept with those before.
fn first_like(firsts: &mut BTreeMap<Vec<u8>, u32>, key: Vec<u8>, v: u32) -> Result<u32, NoMemory>
    ensures first { IfOk result (λ first. (keys : List (List ℕ)) → slice_get keys v ≡ Some key.items
        → AreFirsts keys v firsts.old → first ≡ place_of same_key keys key.items) }
    ensures firsts { IfOk result (λ _. (keys : List (List ℕ)) → slice_get keys v ≡ Some key.items
        → AreFirsts keys v firsts.old → AreFirsts keys (v + 1) firsts.new) }
{
    match first_with(firsts, &key) {
        Some(first) => Ok(first),
        None => {
            firsts.insert(key, v)?;
            Ok(v)
        }
    }
}

fn vertex_at(vertices: &[VertexKey], i: usize) -> VertexKey
    requires { i < length vertices.now }
    ensures { slice_get vertices.now i ≡ Some result }
{
    vertices[i]
}

/// For each of these vertices the first of them whose three coordinates are equal, numbers as numbers, however the file spells
/// them; often that's the vertex itself. It takes one look-up in a tree for each vertex, and memory for the coordinates.
pub fn vertex_places(
    alloc: Global,
    file: &File,
    vertices: &[VertexKey],
) -> Result<Vec<u32>, NoMemory>
    ensures same { IfOk result (λ places. ArePlaces file.now vertices.now places.items) }
    ensures each { IfOk result (λ places. length places.items ≡ length vertices.now) }
    ensures inside { IfOk result (λ places. All (λ v. v < length vertices.now) places.items) }
{
    if vertices.len() > u32::MAX as usize {
        return Err(NoMemory);
    }
    let mut firsts = BTreeMap::new(alloc);
    let mut places = Vec::with_capacity(alloc, vertices.len())?;
    'vertices: for i in 0..vertices.len() {
        let key = key_of_place(alloc, file, vertex_at(vertices, i))?;
        places.push(first_like(&mut firsts, key, i as u32)?)?;
    }
    Ok(places)
}
