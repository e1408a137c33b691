//! Which vertices become one, and on which way each of them comes to the least.

use crate::sewn::{Link, Sewn};
use shell_trial::{Facts, Gap, Memory, NONE, Table, at, is_set, put, short};

fn link_ends(memory: &mut Memory, facts: &Facts, sewn: &mut Sewn, edge: u32, taken: u32) {
    let left = facts.edge(edge);
    let kept = facts.edge(taken);
    let against = is_set(&sewn.opposite, edge);
    let (from, to) = if against {
        (kept.to, kept.from)
    } else {
        (kept.from, kept.to)
    };
    memory.add(
        &mut sewn.links,
        Link {
            left: left.from,
            taken: from,
            edge,
            at_end: false,
        },
    );
    memory.add(
        &mut sewn.links,
        Link {
            left: left.to,
            taken: to,
            edge,
            at_end: true,
        },
    );
}

fn link_seams(memory: &mut Memory, facts: &Facts, sewn: &mut Sewn) {
    'edges: for edge in 0..short(facts.edges.len()) {
        let taken = at(&sewn.taken, edge);
        if taken != NONE {
            link_ends(memory, facts, sewn, edge, taken);
        }
    }
}

// Whether the two vertices of a gap have one place.
fn is_joined(facts: &Facts, gap: Gap) -> bool {
    facts.vertex(gap.end).place == facts.vertex(gap.start).place
}

/// How many gaps are joined.
pub(crate) fn count_gaps(facts: &Facts, table: &Table) -> u32 {
    let mut count = 0u32;
    'gaps: for i in 0..table.gaps.len() {
        if is_joined(facts, table.gaps[i]) {
            count = count.saturating_add(1);
        }
    }
    count
}

fn link_gaps(memory: &mut Memory, facts: &Facts, table: &Table, sewn: &mut Sewn) {
    'gaps: for i in 0..table.gaps.len() {
        let gap = table.gaps[i];
        if is_joined(facts, gap) {
            memory.add(
                &mut sewn.links,
                Link {
                    left: gap.end,
                    taken: gap.start,
                    edge: NONE,
                    at_end: false,
                },
            );
        }
    }
}

// The links of each vertex, chained: each link stands twice, at each of its vertices.
#[derive(Drop)]
struct Chains {
    first: Vec<u32>,
    next: Vec<u32>,
}

// The vertex at which a link stands at a place of the chains, and the other one.
fn ends_at(sewn: &Sewn, place: u32) -> (u32, u32) {
    let link = sewn.link(place / 2);
    if place % 2 == 0 {
        (link.left, link.taken)
    } else {
        (link.taken, link.left)
    }
}

fn chains_of(memory: &mut Memory, sewn: &Sewn, vertices: u32) -> Chains {
    let count = short(sewn.links.len()).saturating_mul(2);
    let mut first = memory.filled(vertices, NONE);
    let mut next = memory.filled(count, NONE);
    'links: for i in 0..count {
        let place = count - 1 - i;
        let (vertex, _) = ends_at(sewn, place);
        put(&mut next, place, at(&first, vertex));
        put(&mut first, vertex, place);
    }
    Chains { first, next }
}

// Reaches the vertices that are linked with one, if they weren't reached before.
fn reach_next(
    memory: &mut Memory,
    sewn: &mut Sewn,
    chains: &Chains,
    queue: &mut Vec<u32>,
    vertex: u32,
    least: u32,
) {
    let mut place = at(&chains.first, vertex);
    'links: for _ in 0..chains.next.len() {
        if place == NONE {
            break 'links;
        }
        let (_, other) = ends_at(sewn, place);
        if at(&sewn.before, other) == NONE && other != least {
            put(&mut sewn.before, other, vertex);
            put(&mut sewn.by, other, place / 2);
            put(&mut sewn.least, other, least);
            memory.add(queue, other);
        }
        place = at(&chains.next, place);
    }
}

// Reaches all vertices that are linked with one, the nearest first.
fn reach_from(memory: &mut Memory, sewn: &mut Sewn, chains: &Chains, least: u32) {
    let mut queue = memory.list();
    memory.add(&mut queue, least);
    'queue: for i in 0..sewn.least.len() {
        if i >= queue.len() {
            break 'queue;
        }
        let vertex = queue[i];
        reach_next(memory, sewn, chains, &mut queue, vertex, least);
    }
}

/// Links the vertices that become one.
pub(crate) fn link_vertices(memory: &mut Memory, facts: &Facts, table: &Table, sewn: &mut Sewn) {
    link_seams(memory, facts, sewn);
    link_gaps(memory, facts, table, sewn);
    let vertices = short(facts.vertices.len());
    let chains = chains_of(memory, sewn, vertices);
    'vertices: for vertex in 0..vertices {
        if at(&chains.first, vertex) != NONE && at(&sewn.before, vertex) == NONE {
            reach_from(memory, sewn, &chains, vertex);
        }
    }
}
