//! Each call that no program makes has its answer: a body that always gives up, as one without memory may, would be proved.

use crate::answers::{
    compacted_count, extracted_count, is_apart, reference_count, written_integer, written_real,
};
use crate::comparing::same;
use iges_base::{Bytes, EntryNo};

fn is_text(text: &Option<Bytes>, due: &[u8]) -> bool {
    match text {
        Some(text) => text.as_slice() == due,
        None => false,
    }
}

#[test]
fn an_integer_is_written(rt: HostRuntime) {
    same(
        &rt,
        &is_text(&written_integer(rt.alloc(), -7), b"-7"),
        &true,
    );
}

#[test]
fn a_real_is_spelled_and_written(rt: HostRuntime) {
    same(
        &rt,
        &is_text(&written_real(rt.alloc(), b"1.50D3"), b"1.50D3"),
        &true,
    );
}

#[test]
fn a_list_of_edges_refers_to_its_curve_and_vertices(rt: HostRuntime) {
    same(&rt, &reference_count(rt.alloc(), EntryNo(7)), &Some(2));
}

#[test]
fn all_entries_of_the_ball_are_extracted(rt: HostRuntime) {
    same(&rt, &extracted_count(rt.alloc()), &Some(9));
}

#[test]
fn all_entries_of_the_ball_stay_when_it_is_compacted(rt: HostRuntime) {
    same(&rt, &compacted_count(rt.alloc()), &Some(9));
}

#[test]
fn the_first_shell_is_apart(rt: HostRuntime) {
    same(&rt, &is_apart(rt.alloc()), &Some(true));
}
