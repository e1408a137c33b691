//! Vertices and faces as a line names them.

ghost use Rattle.brep_lists.specs.Record.{value_or_default};
ghost use Rattle.iges_params.specs.Named.{values_of};
ghost use Rattle.std.specs.Prelude.{◌≡◌, ◌+◌, ◌-◌, ◌*◌, ◌<◌, ◌++◌, ◌∷◌, [], OnOk, pos};
ghost use Rattle.where_text.specs.Places.{coordinate, face_words, surface_of, vertex_words};
ghost use Rattle.where_text.specs.Spelled.{listed, space_word};

use crate::listing::EntryNumbers;
use crate::types::put_type;
use crate::words::put_listed;
use brep_lists::int_at;
use iges_base::{EntryNo, NoMemory, Out, put_number};
use iges_params::File;
use solid_data::VertexKey;

// One of the three coordinates, from 0.
#[tactic(auto, unfolding(crate::specs::Places::coordinate))]
fn put_coordinate(out: &mut Out, file: &File, key: VertexKey, axis: usize) -> Result<(), NoMemory>
    requires { axis < 3 }
    ensures { OnOk result (out.new ≡ out.old ++ space_word (coordinate file.now key axis)) }
{
    let place = (3 * key.index as usize + axis).saturating_sub(2);
    match file.values(key.list) {
        Some(values) => put_listed(out, values.get(place)),
        None => put_listed(out, None),
    }
}

/// Appends a vertex: the number of its list, its index there from 1, and its coordinates as the list's record spells them,
/// of more than 32 bytes the first ones, `-` where it has none (IGES 5.3, 4.145). Each of the five words comes after a space.
#[tactic(auto, unfolding(crate::specs::Places::vertex_words))]
pub fn put_vertex(out: &mut Out, file: &File, key: VertexKey) -> Result<(), NoMemory>
    ensures text { OnOk result (out.new ≡ out.old ++ vertex_words file.now key) }
{
    put_number(out, u64::from(key.list.0))?;
    put_number(out, u64::from(key.index))?;
    put_coordinate(out, file, key, 0)?;
    put_coordinate(out, file, key, 1)?;
    put_coordinate(out, file, key, 2)
}

// The directory number of a face's surface; 0 where its record gives none.
fn surface_of(file: &File, face: EntryNo) -> i64
    ensures { result ≡ surface_of file.now face }
{
    match file.values(face) {
        Some(values) => int_at(values, 0),
        None => 0,
    }
}

/// Appends a face: its number and the word for the type of its surface, each after a space (IGES 5.3, 4.148). The face's
/// number joins the numbers that facts name.
#[tactic(auto, unfolding(crate::specs::Places::face_words))]
pub fn put_face(
    out: &mut Out,
    named: &mut EntryNumbers,
    file: &File,
    face: EntryNo,
) -> Result<(), NoMemory>
    ensures text { OnOk result (out.new ≡ out.old ++ face_words file.now face) }
    ensures named { OnOk result (named.new ≡ named.old ++ face ∷ []) }
{
    put_number(out, u64::from(face.0))?;
    put_type(out, file, surface_of(file, face))?;
    named.push(face)
}
