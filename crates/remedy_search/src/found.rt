//! The remedies that were found, the cheapest first.

use shell_change::{Change, Remedy};
use shell_trial::{Facts, Memory, Trial, is_set, set, short, taken};
use solid_data::ShellAt;
use trial_changes::{Seams, are_alike, change_of, is_alike, removed_alike, seams_of};
use trial_seams::{Sewn, unsewn};

// So many remedies are told.
const MOST_TOLD: usize = 6;

// So many trials a shell has.
const MOST_TRIALS: u32 = 24;

// What a remedy does. Where nothing was sewn its change is told at the end, if others don't come before it.
#[derive(Drop)]
enum Way {
    Told(Change),
    Tried(Trial),
}

/// A remedy that was found.
#[derive(Drop)]
pub(crate) struct Proposal {
    way: Way,
    cost: u32,
    sure: bool,
    // How it splits crowded edges.
    split: u32,
}

/// The remedies of a shell that were found.
#[derive(Drop)]
pub(crate) struct Found {
    shell: ShellAt,
    pub(crate) remedies: Vec<Proposal>,
    trials: u32,
    // Whether the shell passes as it is, but for vertices of earlier shells.
    closed: bool,
}

impl Found {
    pub(crate) fn new(memory: &Memory, shell: ShellAt) -> Found {
        Found {
            shell,
            remedies: memory.list(),
            trials: 0,
            closed: false,
        }
    }

    /// Whether nothing more is tried.
    pub(crate) fn is_over(&self) -> bool {
        self.closed || self.trials >= MOST_TRIALS
    }

    pub(crate) fn count_trial(&mut self) {
        self.trials = self.trials.saturating_add(1);
    }

    /// Whether a remedy of this cost would come after all that are told. So would a dearer one, and no step makes a trial cheaper.
    pub(crate) fn is_too_dear(&self, cost: u32) -> bool {
        self.remedies.len() >= MOST_TOLD && place_for(&self.remedies, cost) >= MOST_TOLD
    }
}

fn shares_some(facts: &Facts) -> bool {
    'vertices: for vertex in facts.vertices.as_slice() {
        if vertex.shared {
            return true;
        }
    }
    false
}

// Whether a remedy does the same as a trial with these seams.
fn is_same(facts: &Facts, trial: &Trial, seams: &Seams, other: &Proposal) -> bool {
    if other.split != trial.split {
        return false;
    }
    match &other.way {
        Way::Told(change) => is_alike(facts, trial, seams, change),
        Way::Tried(tried) => are_alike(facts, trial, seams, tried),
    }
}

// The place of a remedy that does the same as a trial with these seams, and its cost; None if there is none.
fn same_at(found: &Found, facts: &Facts, trial: &Trial, seams: &Seams) -> Option<(usize, u32)> {
    let mut i = 0usize;
    'remedies: for other in found.remedies.as_slice() {
        if is_same(facts, trial, seams, other) {
            return Some((i, other.cost));
        }
        i = i.saturating_add(1);
    }
    None
}

// The place before the first remedy that costs more.
fn place_for(remedies: &[Proposal], cost: u32) -> usize {
    let mut place = 0usize;
    'remedies: for other in remedies {
        if other.cost > cost {
            return place;
        }
        place = place.saturating_add(1);
    }
    place
}

fn leave_out(found: &mut Found, i: usize) {
    if i < found.remedies.len() {
        let _remedy = found.remedies.remove(i);
    }
}

fn add(memory: &mut Memory, found: &mut Found, remedy: Proposal) {
    let place = place_for(&found.remedies, remedy.cost);
    if place <= found.remedies.len() && found.remedies.insert(place, remedy).is_err() {
        memory.run_out();
    }
    found.remedies.truncate(MOST_TOLD);
}

// What a trial does; None if it would take too many moves. Nothing is left of a trial that is kept.
fn way_of(
    memory: &mut Memory,
    facts: &Facts,
    sewn: &Sewn,
    trial: &mut Trial,
    seams: Seams,
    shell: ShellAt,
) -> Option<Way> {
    if sewn.links.is_empty() {
        return Some(Way::Tried(taken(memory, trial)));
    }
    let change = change_of(memory, facts, sewn, trial, seams, shell)?;
    Some(Way::Told(change))
}

// Puts a trial among the remedies, unless one that does the same costs no more; one that costs more goes.
fn add_unlike(
    memory: &mut Memory,
    facts: &Facts,
    sewn: &Sewn,
    trial: &mut Trial,
    found: &mut Found,
) {
    let (cost, sure, split) = (trial.cost.max(1), trial.sure, trial.split);
    let seams = seams_of(memory, facts, trial, sewn);
    let same = same_at(found, facts, trial, &seams);
    if let Some((_, other)) = same {
        if other <= cost {
            return;
        }
    }
    let Some(way) = way_of(memory, facts, sewn, trial, seams, found.shell) else {
        return;
    };
    if let Some((i, _)) = same {
        leave_out(found, i);
    }
    let remedy = Proposal {
        way,
        cost,
        sure,
        split,
    };
    add(memory, found, remedy);
}

/// Puts a trial after which the shell passes among the remedies.
pub(crate) fn add_trial(
    memory: &mut Memory,
    facts: &Facts,
    sewn: &Sewn,
    trial: &mut Trial,
    found: &mut Found,
) {
    if trial.cost == 0 {
        found.closed = true;
        if !shares_some(facts) {
            return;
        }
    }
    if !found.is_too_dear(trial.cost.max(1)) {
        add_unlike(memory, facts, sewn, trial, found);
    }
}

fn told_change(
    memory: &mut Memory,
    facts: &Facts,
    sewn: &Sewn,
    way: Way,
    shell: ShellAt,
) -> Option<Change> {
    match way {
        Way::Told(change) => Some(change),
        Way::Tried(trial) => {
            let seams = seams_of(memory, facts, &trial, sewn);
            change_of(memory, facts, sewn, &trial, seams, shell)
        }
    }
}

/// The remedies that were found, with their changes.
pub(crate) fn told(memory: &mut Memory, facts: &Facts, found: Found) -> Vec<Remedy> {
    let sewn = unsewn(memory, facts);
    let shell = found.shell;
    let mut out = memory.list();
    'remedies: for proposal in found.remedies {
        let (cost, sure) = (proposal.cost, proposal.sure);
        if let Some(change) = told_change(memory, facts, &sewn, proposal.way, shell) {
            memory.add(&mut out, Remedy { change, cost, sure });
        }
    }
    out
}

// Whether another remedy of the same cost removes other faces.
fn has_rival(memory: &mut Memory, remedies: &[Remedy], own: &Remedy, like: &[u32]) -> bool {
    'remedies: for other in remedies {
        if other.cost == own.cost && !removed_alike(memory, &own.change, &other.change, like) {
            return true;
        }
    }
    false
}

fn rivals(memory: &mut Memory, remedies: &[Remedy], like: &[u32]) -> Vec<bool> {
    let mut out = memory.unset(short(remedies.len()));
    let mut i = 0u32;
    'remedies: for own in remedies {
        set(&mut out, i, has_rival(memory, remedies, own, like));
        i = i.saturating_add(1);
    }
    out
}

/// Lets only those remedies be sure of which no other of the same cost removes other faces.
pub(crate) fn settle(memory: &mut Memory, remedies: &mut [Remedy], like: &[u32]) {
    let rivals = rivals(memory, remedies, like);
    'settle: for i in 0..remedies.len() {
        if is_set(&rivals, short(i)) {
            remedies[i].sure = false;
        }
    }
}
