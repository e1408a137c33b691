//! The values of the records.

ghost use Rattle.std.specs.Prelude.{◌≡◌, ◌++◌, ◌<◌, ◌≤◌, IfOk, OnOk, map};
ghost use Rattle.sample_solids.specs.Sample.{whole, shell_record, vertex_record, edge_record, face_record, loop_record, edges_listed, use_record};

use crate::index::{across_index, face_number, up_index, vertex_index};
use iges_base::NoMemory;
use iges_fields::{Value, Values};
use std::alloc::Global;

/// Puts integers at the end.
fn put(values: &mut Values, numbers: &[u32]) -> Result<(), NoMemory>
    ensures { OnOk result (values.new ≡ values.old ++ map whole numbers.now) }
{
    'numbers: for number in numbers {
        values.push(Value::Int(i64::from(*number)))?;
    }
    Ok(())
}

/// The values of a record that are these integers.
pub(crate) fn values_of(alloc: Global, numbers: &[u32]) -> Result<Values, NoMemory>
    ensures { IfOk result (λ values. values ≡ map whole numbers.now) }
{
    let mut values = Values::new(alloc);
    put(&mut values, numbers)?;
    Ok(values)
}

/// The values of the shell: the faces, each with flag 1.
pub(crate) fn shell_values(alloc: Global, n: u32) -> Result<Values, NoMemory>
    requires some { 0 < n }
    requires few { n ≤ 200 }
    ensures { IfOk result (λ values. values ≡ map whole (shell_record n)) }
{
    let mut values = values_of(alloc, &[n * n])?;
    'squares: for k in 0..n * n {
        put(&mut values, &[face_number(n, k / n, k % n), 1])?;
    }
    Ok(values)
}

/// The values of the list of vertices: the one at (i, j) has the coordinates (i, j, 0).
pub(crate) fn vertex_values(alloc: Global, n: u32) -> Result<Values, NoMemory>
    requires some { 0 < n }
    requires few { n ≤ 200 }
    ensures { IfOk result (λ values. values ≡ map whole (vertex_record n)) }
{
    let mut values = values_of(alloc, &[n * n])?;
    'squares: for k in 0..n * n {
        put(&mut values, &[k / n, k % n, 0])?;
    }
    Ok(values)
}

/// Puts the two edges that begin at the vertex at (i, j), across and up.
fn put_edges(values: &mut Values, n: u32, i: u32, j: u32) -> Result<(), NoMemory>
    requires some { 0 < n }
    requires few { n ≤ 200 }
    requires low { i < n }
    requires left { j < n }
    ensures { OnOk result (values.new ≡ values.old ++ map whole (edges_listed n (i, j))) }
{
    let own = vertex_index(n, i, j);
    put(values, &[9, 5, own, 5, vertex_index(n, i, j + 1)])?;
    put(values, &[9, 5, own, 5, vertex_index(n, i + 1, j)])
}

/// The values of the list of edges.
pub(crate) fn edge_values(alloc: Global, n: u32) -> Result<Values, NoMemory>
    requires some { 0 < n }
    requires few { n ≤ 200 }
    ensures { IfOk result (λ values. values ≡ map whole (edge_record n)) }
{
    let mut values = values_of(alloc, &[2 * n * n])?;
    'squares: for k in 0..n * n {
        put_edges(&mut values, n, k / n, k % n)?;
    }
    Ok(values)
}

/// The values of the face at (i, j): a plane, and one loop, which is the outer one.
pub(crate) fn face_values(alloc: Global, n: u32, i: u32, j: u32) -> Result<Values, NoMemory>
    requires some { 0 < n }
    requires few { n ≤ 200 }
    ensures { IfOk result (λ values. values ≡ map whole (face_record n (i, j))) }
{
    values_of(alloc, &[11, 1, 1, face_number(n, i, j) + 2])
}

/// Puts a use of an edge, with no parameter curve; flag 1 is along the edge, 0 against it.
fn put_use(values: &mut Values, index: u32, flag: u32) -> Result<(), NoMemory>
    ensures { OnOk result (values.new ≡ values.old ++ map whole (use_record index flag)) }
{
    put(values, &[0, 7, index, flag, 0])
}

/// The values of the loop round the square at (i, j).
pub(crate) fn loop_values(alloc: Global, n: u32, i: u32, j: u32) -> Result<Values, NoMemory>
    requires some { 0 < n }
    requires few { n ≤ 200 }
    requires low { i < n }
    requires left { j < n }
    ensures { IfOk result (λ values. values ≡ map whole (loop_record n (i, j))) }
{
    let mut values = values_of(alloc, &[4])?;
    put_use(&mut values, across_index(n, i, j), 1)?;
    put_use(&mut values, up_index(n, i, j + 1), 1)?;
    put_use(&mut values, across_index(n, i + 1, j), 0)?;
    put_use(&mut values, up_index(n, i, j), 0)?;
    Ok(values)
}
