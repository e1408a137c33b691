//! The paragraph on vertices that a shell shares with shells before it.

ghost use Rattle.std.specs.Prelude.{◌≡◌, ◌≤◌, ◌+◌, ◌-◌, ◌++◌, ◌∷◌, [], ℕ, All, length, map, flat_map, take, OnOk};
ghost use Rattle.iges_base.specs.declared.entry_no.EntryNo.{EntryNo as AnyEntryNo};
ghost use Rattle.where_shells.specs.Apart.{face_count};
ghost use Rattle.where_shells.specs.Viewed.{HasFaces, IsVertex, apart_lines, apart_named, apart_text, in_shell_line, shared_lines, shared_named, shared_of, shared_text};

use crate::lines::{put_count, put_face, put_head, put_vertex_line};
use crate::view::{Page, ShellView};
use iges_base::{EntryNo, NoMemory};
use shell_facts::FacesUpTo;
use solid_data::{Rule, VertexId};
use where_text::{put_more_facts, put_more_items};

/// How many of the faces at a vertex are written.
const FACE_LIMIT: usize = 5;

// A line for a face, given with the number of its shell from 0.
#[tactic(auto, unfolding(crate::specs::Apart::in_shell_line))]
fn put_in_shell(page: &mut Page, view: &ShellView<'_>, face: (u32, EntryNo)) -> Result<(), NoMemory>
    ensures text { OnOk result (page.new.out ≡ page.old.out ++ in_shell_line view.now face) }
    ensures named { OnOk result (page.new.named ≡ page.old.named ++ face.1 ∷ []) }
{
    put_count(&mut page.out, "  in shell", face.0 as usize + 1)?;
    page.out.put(b" face")?;
    put_face(page, view, face.1)?;
    page.out.put(b"\n")
}

// Lines for so many of the faces, the first ones.
fn put_in_shells(
    page: &mut Page,
    view: &ShellView<'_>,
    faces: &FacesUpTo,
    count: usize,
) -> Result<(), NoMemory>
    requires { count ≤ length faces.now }
    ensures text { OnOk result (page.new.out
        ≡ page.old.out ++ flat_map (in_shell_line view.now) (take count faces.now)) }
    ensures named { OnOk result (page.new.named
        ≡ page.old.named ++ map (λ (x : ℕ × AnyEntryNo). x.1) (take count faces.now)) }
{
    'faces: for i in 0..count {
        put_in_shell(page, view, faces.face(i))?;
    }
    Ok(())
}

fn face_count(faces: usize) -> usize
    ensures is { result ≡ face_count faces }
    ensures within { result ≤ faces }
{
    faces.min(FACE_LIMIT)
}

// A vertex, and the first of the faces at it.
#[tactic(auto, unfolding(crate::specs::Apart::shared_lines))]
fn put_shared_lines(
    page: &mut Page,
    view: &ShellView<'_>,
    vertex: u32,
    faces: &FacesUpTo,
) -> Result<(), NoMemory>
    ensures text { OnOk result (page.new.out ≡ page.old.out
        ++ shared_lines view.now vertex faces.now) }
    ensures named { OnOk result (page.new.named ≡ page.old.named
        ++ map (λ (x : ℕ × AnyEntryNo). x.1) (take (face_count (length faces.now)) faces.now)) }
{
    let count = face_count(faces.len());
    put_vertex_line(&mut page.out, view, "vertex", vertex)?;
    put_in_shells(page, view, faces, count)?;
    put_more_facts(&mut page.out, faces.len() - count)
}

fn put_shared(page: &mut Page, view: &ShellView<'_>, vertex: u32) -> Result<(), NoMemory>
    requires faces { HasFaces view.now }
    requires inside { IsVertex view.now vertex }
    ensures text { OnOk result (page.new.out ≡ page.old.out ++ shared_text view.now vertex) }
    ensures named { OnOk result (page.new.named ≡ page.old.named ++ shared_named view.now vertex) }
{
    let faces = view.faces.up_to(view.at, VertexId(vertex));
    put_shared_lines(page, view, vertex, &faces)
}

fn put_each_shared(page: &mut Page, view: &ShellView<'_>, shared: &[u32]) -> Result<(), NoMemory>
    requires faces { HasFaces view.now }
    requires inside { All (IsVertex view.now) shared.now }
    ensures text { OnOk result (page.new.out ≡ page.old.out
        ++ flat_map (shared_text view.now) shared.now) }
    ensures named { OnOk result (page.new.named ≡ page.old.named
        ++ flat_map (shared_named view.now) shared.now) }
{
    'vertices: for i in 0..shared.len() {
        put_shared(page, view, shared[i])?;
    }
    Ok(())
}

#[tactic(auto, unfolding(crate::specs::Apart::apart_lines))]
fn put_apart_lines(page: &mut Page, view: &ShellView<'_>, shared: &[u32]) -> Result<(), NoMemory>
    requires faces { HasFaces view.now }
    requires inside { All (IsVertex view.now) shared.now }
    ensures text { OnOk result (page.new.out ≡ page.old.out ++ apart_lines view.now shared.now) }
    ensures named { OnOk result (page.new.named ≡ page.old.named
        ++ apart_named view.now shared.now) }
{
    let count = view.listing.count(shared.len());
    put_head(&mut page.out, Rule::Shared, view.at, shared.len())?;
    put_each_shared(page, view, &shared[..count])?;
    put_more_items(&mut page.out, shared.len() - count)
}

/// Appends the paragraph on the vertices that a shell shares with shells before it; nothing where there are none.
pub fn put_apart(page: &mut Page, view: &ShellView<'_>, shared: &[u32]) -> Result<(), NoMemory>
    requires faces { HasFaces view.now }
    requires shared { shared.now ≡ shared_of view.now }
    ensures text { OnOk result (page.new.out ≡ page.old.out ++ apart_text view.now shared.now) }
    ensures named { OnOk result (page.new.named ≡ page.old.named
        ++ apart_named view.now shared.now) }
{
    if shared.is_empty() {
        return Ok(());
    }
    put_apart_lines(page, view, shared)
}
