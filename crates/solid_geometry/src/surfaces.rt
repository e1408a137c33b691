//! The surfaces of faces.

use crate::values::int_of;
use iges_base::NoMemory;
use iges_params::File;
use solid_data::{FaceUse, ShellAt, Solid};
use std::alloc::Global;

// The surface is the first value of a face (IGES 5.3, 4.148).
fn push_surfaces(surfaces: &mut Vec<i64>, file: &File, faces: &[FaceUse]) -> Result<(), NoMemory> {
    'faces: for face in faces {
        let surface = match file.values(face.entity) {
            Some(values) => int_of(values.get(0)),
            None => 0,
        };
        surfaces.push(surface)?;
    }
    Ok(())
}

/// The entry of the surface of each face, in the order in which the shells list them.
pub fn surfaces_of(alloc: Global, file: &File, solid: &Solid) -> Result<Vec<i64>, NoMemory> {
    let mut surfaces = Vec::new(alloc);
    'shells: for at in 0..u32::MAX {
        let Some(shell) = solid.shell(ShellAt(at)) else {
            return Ok(surfaces);
        };
        push_surfaces(&mut surfaces, file, shell.faces.as_slice())?;
    }
    Ok(surfaces)
}
