//! The new entries of a change.

ghost use Rattle.changed_file.specs.Changing.{edge_list, new_lists, vertex_list, with_first, with_outer, with_piece, with_pieces, with_void};
ghost use Rattle.changed_file.specs.Folds.{fold_items};
ghost use Rattle.std.specs.Prelude.{◌≡◌, ◌++◌, IfOk, OnOk};

use crate::draft::{Draft, NewEntry, next_number, put_entry, put_values};
use crate::faces::Piece;
use changed_records::{
    ChangeFault, FaceFlag, NewLists, edge_list_values, new_shell_values, new_solid_values,
    shell_values, vertex_list_values,
};
use iges_base::ItemList;
use iges_params::File;
use shell_change::{Change, NewEdge, NewVertex};
use solid_data::{Shell, ShellAt, Solid};
use std::alloc::Global;

fn put_vertex_list(
    added: &mut ItemList<NewEntry>,
    alloc: Global,
    file: &File,
    solid: &Solid,
    vertices: &[NewVertex],
) -> Result<(), ChangeFault>
    ensures { OnOk result (added.new
        ≡ added.old ++ vertex_list file.now solid.now vertices.now) }
{
    match vertices {
        [] => Ok(()),
        [first, ..] => {
            let like = solid.vertex_key(first.like).list;
            let values = vertex_list_values(alloc, file, solid, vertices)?;
            put_entry(added, like, values)?;
            Ok(())
        }
    }
}

fn put_edge_list(
    added: &mut ItemList<NewEntry>,
    alloc: Global,
    file: &File,
    solid: &Solid,
    lists: NewLists,
    edges: &[NewEdge],
) -> Result<(), ChangeFault>
    ensures { OnOk result (added.new
        ≡ added.old ++ edge_list file.now solid.now lists edges.now) }
{
    match edges {
        [] => Ok(()),
        [first, ..] => {
            let like = solid.edge_key(first.like).list;
            let values = edge_list_values(alloc, file, solid, lists, edges)?;
            put_entry(added, like, values)?;
            Ok(())
        }
    }
}

/// Puts the lists of new vertices and of new edges, where there are any, and gives their numbers.
pub(crate) fn put_lists(
    added: &mut ItemList<NewEntry>,
    alloc: Global,
    file: &File,
    solid: &Solid,
    change: &Change,
) -> Result<NewLists, ChangeFault>
    ensures lists { IfOk result (λ lists. lists
        ≡ new_lists file.now solid.now added.old change.now) }
    ensures added { IfOk result (λ lists. added.new
        ≡ (added.old ++ vertex_list file.now solid.now change.now.vertices)
        ++ edge_list file.now solid.now lists change.now.edges) }
{
    let vertices = next_number(file, added)?;
    put_vertex_list(added, alloc, file, solid, change.vertices.as_slice())?;
    let edges = next_number(file, added)?;
    let lists = NewLists { vertices, edges };
    put_edge_list(added, alloc, file, solid, lists, change.edges.as_slice())?;
    Ok(lists)
}

fn put_outer(
    draft: &mut Draft,
    alloc: Global,
    file: &File,
    solid: &Solid,
    shell: &Shell,
    faces: &[FaceFlag],
) -> Result<(), ChangeFault>
    ensures { OnOk result (draft.new
        ≡ with_outer file.now solid.now shell.now draft.old faces.now) }
{
    let outer = FaceFlag {
        number: next_number(file, &draft.added)?,
        flag: shell.flag,
    };
    let values = new_shell_values(alloc, faces)?;
    put_entry(&mut draft.added, shell.entity, values)?;
    let values = new_solid_values(alloc, outer)?;
    put_entry(&mut draft.added, solid.entity(), values)?;
    Ok(())
}

fn put_void(
    draft: &mut Draft,
    alloc: Global,
    file: &File,
    shell: &Shell,
    faces: &[FaceFlag],
) -> Result<(), ChangeFault>
    ensures { OnOk result (draft.new ≡ with_void file.now shell.now draft.old faces.now) }
{
    let new = FaceFlag {
        number: next_number(file, &draft.added)?,
        flag: shell.flag,
    };
    let values = new_shell_values(alloc, faces)?;
    put_entry(&mut draft.added, shell.entity, values)?;
    draft.voids.push(new)?;
    Ok(())
}

fn put_piece(
    draft: &mut Draft,
    alloc: Global,
    file: &File,
    solid: &Solid,
    at: ShellAt,
    shell: &Shell,
    faces: &[FaceFlag],
) -> Result<(), ChangeFault>
    ensures { OnOk result (draft.new
        ≡ with_piece file.now solid.now at.0 shell.now draft.old faces.now) }
{
    if at.0 == 0 {
        return put_outer(draft, alloc, file, solid, shell, faces);
    }
    put_void(draft, alloc, file, shell, faces)
}

fn put_more(
    draft: &mut Draft,
    alloc: Global,
    file: &File,
    solid: &Solid,
    at: ShellAt,
    shell: &Shell,
    pieces: &[Piece],
) -> Result<(), ChangeFault>
    ensures { OnOk result (draft.new
        ≡ fold_items (with_piece file.now solid.now at.0 shell.now) draft.old pieces.now) }
{
    'pieces: for i in 0..pieces.len() {
        put_piece(draft, alloc, file, solid, at, shell, pieces[i].as_slice())?;
    }
    Ok(())
}

fn put_first(
    draft: &mut Draft,
    alloc: Global,
    file: &File,
    shell: &Shell,
    faces: &[FaceFlag],
) -> Result<(), ChangeFault>
    ensures { OnOk result (draft.new ≡ with_first file.now shell.now draft.old faces.now) }
{
    let Some(values) = file.values(shell.entity) else {
        return Err(ChangeFault::Unfit);
    };
    let new = shell_values(alloc, values, faces)?;
    put_values(&mut draft.slots, shell.entity, new)
}

/// Puts the pieces of a shell: the first in its place, each other as a shell of its own.
pub(crate) fn put_pieces(
    draft: &mut Draft,
    alloc: Global,
    file: &File,
    solid: &Solid,
    at: ShellAt,
    shell: &Shell,
    pieces: &[Piece],
) -> Result<(), ChangeFault>
    ensures { OnOk result (draft.new
        ≡ with_pieces file.now solid.now at.0 shell.now draft.old pieces.now) }
{
    match pieces {
        [] => Ok(()),
        [first, more @ ..] => {
            put_first(draft, alloc, file, shell, first.as_slice())?;
            put_more(draft, alloc, file, solid, at, shell, more)
        }
    }
}
