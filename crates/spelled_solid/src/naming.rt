//! Vertices and faces put by name, spelled once where a text names them often.

ghost use Rattle.std.specs.Prelude.{◌≡◌, ◌++◌, ◌∷◌, [], IfOk, OnOk};
ghost use Rattle.where_text.specs.Places.{face_words};
ghost use Rattle.spelled_solid.specs.Words.{vertex_named};

use crate::tables::{face_table, vertex_table, words_of};
use iges_base::{Bytes, EntryNo, NoMemory, Out};
use iges_params::File;
use solid_data::{Solid, VertexId};
use std::alloc::Global;
use std::marker::Model;
use where_text::{EntryNumbers, put_face, put_vertex};

/// A solid of a file, with the words of its vertices and faces where they were spelled before.
#[derive(Drop)]
pub struct SpelledSolid<'a> {
    file: &'a File,
    solid: &'a Solid,
    vertices: Vec<Bytes>,
    faces: Vec<Bytes>,
}

impl<'a> Model for SpelledSolid<'a> {
    ghost use Rattle.spelled_solid.specs.Words.{FileSolid};

    ghost Value = { FileSolid };

    ghost use Rattle.spelled_solid.specs.Words.{AreTables};

    ghost view = { λ s. record { file = s.file.now; solid = s.solid.now } };

    ghost invariant = { λ s. AreTables s.file.now s.solid.now s.vertices.items s.faces.items };
}

impl<'a> SpelledSolid<'a> {
    ghost use Rattle.std.specs.Prelude.{◌≡◌, ◌++◌, ◌∷◌, [], IfOk, OnOk};
    ghost use Rattle.where_text.specs.Places.{face_words};
    ghost use Rattle.spelled_solid.specs.Words.{vertex_named};

    /// A solid of which nothing is spelled yet: for a text that names few of its parts.
    pub fn new(alloc: Global, file: &'a File, solid: &'a Solid) -> SpelledSolid<'a>
        ensures { result ≡ record { file = file.now; solid = solid.now } }
    {
        SpelledSolid {
            file,
            solid,
            vertices: Vec::new(alloc),
            faces: Vec::new(alloc),
        }
    }

    /// A solid of which each vertex and each face is spelled once, here: for a text that names them often. It takes the
    /// memory of these words.
    pub fn spell(
        alloc: Global,
        file: &'a File,
        solid: &'a Solid,
    ) -> Result<SpelledSolid<'a>, NoMemory>
        ensures { IfOk result (λ spelled. spelled ≡ record { file = file.now; solid = solid.now }) }
    {
        Ok(SpelledSolid {
            file,
            solid,
            vertices: vertex_table(alloc, file, solid)?,
            faces: face_table(alloc, file, solid)?,
        })
    }

    /// Appends a vertex, as `put_vertex` does.
    pub fn put_vertex(&self, out: &mut Out, vertex: VertexId) -> Result<(), NoMemory>
        ensures { OnOk result (out.new ≡ out.old ++ vertex_named self.now.file self.now.solid vertex.0) }
    {
        match words_of(self.vertices.as_slice(), vertex.0) {
            Some(words) => out.put(words),
            None => put_vertex(out, self.file, self.solid.vertex_key(vertex)),
        }
    }

    /// Appends a face, as `put_face` does: its number joins those that facts name.
    pub fn put_face(
        &self,
        out: &mut Out,
        named: &mut EntryNumbers,
        face: EntryNo,
    ) -> Result<(), NoMemory>
        ensures text { OnOk result (out.new ≡ out.old ++ face_words self.now.file face) }
        ensures named { OnOk result (named.new ≡ named.old ++ face ∷ []) }
    {
        let Some(words) = words_of(self.faces.as_slice(), face.0) else {
            return put_face(out, named, self.file, face);
        };
        out.put(words)?;
        named.push(face)
    }
}
