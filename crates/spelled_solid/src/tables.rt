//! Tables of words by number.

ghost use Rattle.std.specs.Prelude.{◌≡◌, ◌<◌, ◌≤◌, ℕ, List, IfOk, IfSome, OnOk, length};
ghost use Rattle.where_text.specs.Places.{face_words, vertex_words};
ghost use Rattle.spelled_solid.specs.Words.{AreWords, face_named, vertex_named};

use iges_base::{Bytes, EntryNo, NoMemory, Out};
use iges_params::File;
use solid_data::{Shell, ShellAt, Solid, VertexId, VertexKey};
use std::alloc::Global;
use where_text::{EntryNumbers, put_face, put_vertex};

// Rows without words up to a length.
fn make_room(words: &mut Vec<Bytes>, count: usize) -> Result<(), NoMemory>
    ensures words { IfOk result (λ _. (told : ℕ → List ℕ) → AreWords told words.old.items → AreWords told words.new.items) }
    ensures room { OnOk result (count ≤ length words.new.items) }
{
    'rows: while words.len() < count {
        words.push(Bytes::empty())?;
    }
    Ok(())
}

// Keeps the words of a number.
fn keep(alloc: Global, words: &mut Vec<Bytes>, n: u32, text: Bytes) -> Result<(), NoMemory>
    ensures { IfOk result (λ _. (told : ℕ → List ℕ) → text ≡ told n → AreWords told words.old.items
        → AreWords told words.new.items) }
{
    make_room(words, n as usize + 1)?;
    words[n as usize] = text;
    Ok(())
}

// A vertex as `put_vertex` appends it. The text before is lost.
fn vertex_text(
    alloc: Global,
    text: &mut Out,
    file: &File,
    key: VertexKey,
) -> Result<Bytes, NoMemory>
    ensures { IfOk result (λ words. words ≡ vertex_words file.now key) }
{
    text.cut(0);
    put_vertex(text, file, key)?;
    Bytes::copy(alloc, text.bytes())
}

// A face as `put_face` appends it. The text before is lost.
fn face_text(alloc: Global, text: &mut Out, file: &File, face: EntryNo) -> Result<Bytes, NoMemory>
    ensures { IfOk result (λ words. words ≡ face_words file.now face) }
{
    let mut named = EntryNumbers::new(alloc);
    text.cut(0);
    put_face(text, &mut named, file, face)?;
    Bytes::copy(alloc, text.bytes())
}

// A count of parts as a number of 32 bits.
fn short(count: usize) -> Result<u32, NoMemory>
    ensures { IfOk result (λ n. n ≡ count) }
{
    match u32::try_from(count) {
        Ok(count) => Ok(count),
        Err(_) => Err(NoMemory),
    }
}

/// The words of the vertices of a solid.
pub fn vertex_table(alloc: Global, file: &File, solid: &Solid) -> Result<Vec<Bytes>, NoMemory>
    ensures { IfOk result (λ words. AreWords (vertex_named file.now solid.now) words.items) }
{
    let count = short(solid.vertex_count())?;
    let mut text = Out::new(alloc);
    let mut words = Vec::new(alloc);
    'vertices: for vertex in 0..count {
        let key = solid.vertex_key(VertexId(vertex));
        let told = vertex_text(alloc, &mut text, file, key)?;
        keep(alloc, &mut words, vertex, told)?;
    }
    Ok(words)
}

// Keeps the words of the faces of a shell.
fn keep_faces(
    alloc: Global,
    words: &mut Vec<Bytes>,
    file: &File,
    shell: &Shell,
) -> Result<(), NoMemory>
    ensures { IfOk result (λ _. AreWords (face_named file.now) words.old.items
        → AreWords (face_named file.now) words.new.items) }
{
    let faces = shell.faces.as_slice();
    let mut text = Out::new(alloc);
    'faces: for i in 0..faces.len() {
        let face = faces[i].entity;
        let told = face_text(alloc, &mut text, file, face)?;
        keep(alloc, words, face.0, told)?;
    }
    Ok(())
}

fn keep_shell(
    alloc: Global,
    words: &mut Vec<Bytes>,
    file: &File,
    shell: Option<&Shell>,
) -> Result<(), NoMemory>
    ensures { IfOk result (λ _. AreWords (face_named file.now) words.old.items
        → AreWords (face_named file.now) words.new.items) }
{
    match shell {
        Some(shell) => keep_faces(alloc, words, file, shell),
        None => Ok(()),
    }
}

/// The words of the faces of a solid, by their directory numbers.
pub fn face_table(alloc: Global, file: &File, solid: &Solid) -> Result<Vec<Bytes>, NoMemory>
    ensures { IfOk result (λ words. AreWords (face_named file.now) words.items) }
{
    let count = short(solid.shell_count())?;
    let mut words = Vec::new(alloc);
    'shells: for shell in 0..count {
        keep_shell(alloc, &mut words, file, solid.shell(ShellAt(shell)))?;
    }
    Ok(words)
}

/// The words of a number, where the table has them.
pub fn words_of(words: &[Bytes], n: u32) -> Option<&[u8]>
    ensures { (told : ℕ → List ℕ) → AreWords told words.now → IfSome result (λ w. w.now ≡ told n) }
{
    let text = words.get(n as usize)?.as_slice();
    if text.is_empty() { None } else { Some(text) }
}
