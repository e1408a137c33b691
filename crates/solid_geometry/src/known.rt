//! All that is known of a solid.

ghost use Rattle.record_numbers.specs.EqualRecords.{AreFair};
ghost use Rattle.record_numbers.specs.Keys.{AreNumbers};
ghost use Rattle.solid_geometry.specs.Curves.{curves_of};
ghost use Rattle.solid_geometry.specs.Known.{AreCurvesOf, IsGeometryOf};
ghost use Rattle.solid_geometry.specs.Lines.{IsLineOf};
ghost use Rattle.std.specs.List.{AllZip};
ghost use Rattle.std.specs.Prelude.{◌≡◌, IfOk, length, map};
ghost use Rattle.vertex_places.specs.Places.{ArePlaces};

use crate::arcs::arcs_of;
use crate::curves::{curves_of, vertices_of};
use crate::lines::{LineNumbers, lines_of};
use crate::surfaces::surfaces_of;
use iges_base::{ItemList, NoMemory};
use iges_params::File;
use record_numbers::record_numbers;
use shell_change::{CurveKnown, Geometry, Known};
use solid_data::Solid;
use std::alloc::Global;
use std::collections::BTreeMap;
use vertex_places::vertex_places;

fn listed(alloc: Global, numbers: &[u32]) -> Result<ItemList<u32>, NoMemory>
    ensures { IfOk result (λ list. list ≡ numbers.now) }
{
    let mut list = ItemList::with_room(alloc, numbers.len())?;
    'numbers: for number in numbers {
        list.push(*number)?;
    }
    Ok(list)
}

fn places_of(alloc: Global, file: &File, solid: &Solid) -> Result<ItemList<u32>, NoMemory>
    ensures places { IfOk result (λ places. ArePlaces file.now solid.now.vertices places) }
    ensures each { IfOk result (λ places. length places ≡ length solid.now.vertices) }
{
    let vertices = vertices_of(alloc, solid)?;
    let places = vertex_places(alloc, file, vertices.as_slice())?;
    let list = listed(alloc, places.as_slice())?;
    Ok(list)
}

fn join(
    alloc: Global,
    records: &[u32],
    lines: &[Option<u32>],
) -> Result<ItemList<CurveKnown>, NoMemory>
    requires { length records.now ≡ length lines.now }
    ensures records { IfOk result (λ curves. map (λ c. c.record) curves ≡ records.now) }
    ensures lines { IfOk result (λ curves. map (λ c. c.line) curves ≡ lines.now) }
{
    let mut curves = ItemList::with_room(alloc, records.len())?;
    'curves: for i in 0..records.len() {
        curves.push(CurveKnown {
            record: records[i],
            line: lines[i],
        })?;
    }
    Ok(curves)
}

fn curves_known(
    alloc: Global,
    file: &File,
    curves: &[i64],
) -> Result<ItemList<CurveKnown>, NoMemory>
    ensures { IfOk result (AreCurvesOf file.now curves.now) }
{
    let records = record_numbers(alloc, file, curves)?;
    let mut numbers = LineNumbers {
        points: BTreeMap::new(alloc),
        pairs: BTreeMap::new(alloc),
    };
    let lines = lines_of(alloc, file, &mut numbers, curves)?;
    let known = join(alloc, records.as_slice(), lines.as_slice())?;
    Ok(known)
}

fn geometry_of(
    alloc: Global,
    file: &File,
    solid: &Solid,
    curves: &[i64],
) -> Result<Geometry, NoMemory>
    requires { curves.now ≡ curves_of file.now solid.now.edges }
    ensures { IfOk result (λ geometry. IsGeometryOf file.now solid.now geometry) }
{
    let places = places_of(alloc, file, solid)?;
    let known = curves_known(alloc, file, curves)?;
    Ok(Geometry {
        places,
        curves: known,
    })
}

fn surfaces_known(alloc: Global, file: &File, solid: &Solid) -> Result<ItemList<u32>, NoMemory> {
    let surfaces = surfaces_of(alloc, file, solid)?;
    let numbers = record_numbers(alloc, file, surfaces.as_slice())?;
    listed(alloc, numbers.as_slice())
}

/// What is known of the geometry of a solid of a file, by numbers that are equal exactly where places, curves and lines are.
/// It takes some look-ups in trees for each vertex, edge and face, and memory for the values of the records.
pub fn known_of(alloc: Global, file: &File, solid: &Solid) -> Result<Known, NoMemory>
    ensures { IfOk result (λ k. IsGeometryOf file.now solid.now k.geometry) }
{
    let curves = curves_of(alloc, file, solid)?;
    Ok(Known {
        geometry: geometry_of(alloc, file, solid, curves.as_slice())?,
        surfaces: surfaces_known(alloc, file, solid)?,
        arcs: arcs_of(alloc, file, curves.as_slice())?,
    })
}
