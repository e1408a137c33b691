//! What was sewn.

use shell_change::Told;
use shell_trial::{Facts, Memory, NONE, item_at, put, short};

/// Two vertices that become one.
#[derive(Clone, Copy)]
pub struct Link {
    /// At an end of the edge that is left.
    pub left: u32,
    /// At the corresponding end of the edge that is taken.
    pub taken: u32,
    /// The edge that is left; `NONE` for the two vertices of a gap.
    pub edge: u32,
    /// Whether it is at the end of that edge, or at its start.
    pub at_end: bool,
}

/// How many seams there are of each kind, and how many gaps were joined.
#[derive(Clone, Copy, PartialEq, Eq)]
pub struct SeamCounts {
    pub sure: u32,
    pub ends: u32,
    pub curve: u32,
    pub gaps: u32,
}

/// What was sewn of a shell.
#[derive(Drop)]
pub struct Sewn {
    /// Of each edge the one that was taken for it; `NONE` if it stays.
    pub taken: Vec<u32>,
    /// Of each edge that was left whether the one taken runs the other way.
    pub opposite: Vec<bool>,
    /// Of each edge that was left how the two are equal.
    pub told: Vec<Told>,
    /// Which edges are one of a seam.
    pub used: Vec<bool>,
    pub links: Vec<Link>,
    /// Of each vertex the least one of those that became one with it.
    pub least: Vec<u32>,
    /// Of each vertex the one before it on the way from the least one; `NONE` where there is none.
    pub before: Vec<u32>,
    /// The link of that step.
    pub by: Vec<u32>,
    pub counts: SeamCounts,
    /// Whether both pairs of vertices of some seam were one before.
    pub common: bool,
    /// Whether the edge taken of some sure seam isn't a line.
    pub round: bool,
}

const NO_LINK: Link = Link {
    left: NONE,
    taken: NONE,
    edge: NONE,
    at_end: false,
};

impl Sewn {
    pub fn link(&self, i: u32) -> Link {
        item_at(&self.links, i, NO_LINK)
    }

    pub fn told(&self, edge: u32) -> Told {
        item_at(&self.told, edge, Told::Sure)
    }
}

fn each_itself(memory: &mut Memory, count: u32) -> Vec<u32> {
    let mut out = memory.filled(count, 0);
    'numbers: for i in 0..count {
        put(&mut out, i, i);
    }
    out
}

/// Nothing sewn yet.
pub fn unsewn(memory: &mut Memory, facts: &Facts) -> Sewn {
    let edges = short(facts.edges.len());
    let vertices = short(facts.vertices.len());
    Sewn {
        taken: memory.filled(edges, NONE),
        opposite: memory.unset(edges),
        told: memory.many(edges, Told::Sure),
        used: memory.unset(edges),
        links: memory.list(),
        least: each_itself(memory, vertices),
        before: memory.filled(vertices, NONE),
        by: memory.filled(vertices, NONE),
        counts: SeamCounts {
            sure: 0,
            ends: 0,
            curve: 0,
            gaps: 0,
        },
        common: false,
        round: false,
    }
}
