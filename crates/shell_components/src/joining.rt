//! The least node that each node is joined to.

ghost use Rattle.std.specs.Prelude.{◌≡◌, ◌<◌, ◌≤◌, ◌^◌, ℕ, List, length, vec_len, slice_get, slice_set, Some, IfOk, get_or};
ghost use Rattle.solid_data.specs.Ring.{numbers_from};
ghost use Rattle.solid_data.proofs.Members.{Has};
ghost use Rattle.shell_components.specs.Components.{AreJoined, AreInside, AreLabels, AreComponents};
ghost use Rattle.shell_components.specs.Trees.{AreTrees, AreInOneTree, AreRehung, AreTopsKept, AreSettled, AreHung};

use iges_base::NoMemory;
use solid_data::numbers_below;
use std::alloc::Global;

// The node that a node hangs from; a root hangs from itself.
fn label_of(labels: &Vec<u32>, x: u32) -> u32
    requires { x < length labels.now.items }
    ensures { result ≡ get_or labels.now.items x 0 }
{
    labels[x as usize]
}

// Hangs a node from another.
fn hang(labels: &mut Vec<u32>, x: u32, to: u32)
    requires { x < length labels.old.items }
    ensures { labels.new.items ≡ slice_set labels.old.items x to }
{
    labels[x as usize] = to;
}

/// Hangs a node one step higher, and says where.
fn climb(labels: &mut Vec<u32>, x: u32) -> u32
    requires trees { AreTrees labels.old.items }
    requires inside { x < length labels.old.items }
    ensures rehung { AreRehung labels.old.items labels.new.items }
    ensures tops { AreTopsKept labels.old.items labels.new.items }
    ensures label { result ≡ get_or labels.old.items (get_or labels.old.items x 0) 0 }
    ensures set { labels.new.items ≡ slice_set labels.old.items x result }
    ensures low { result ≤ get_or labels.old.items x 0 }
    ensures lower { get_or labels.old.items x 0 ≤ x }
{
    let label = label_of(labels, x);
    let to = label_of(labels, label);
    hang(labels, x, to);
    to
}

/// The top of a node's tree. Each node on the way to it comes to hang higher, so later ways are short.
fn top_of(labels: &mut Vec<u32>, x: u32) -> u32
    requires trees { AreTrees labels.old.items }
    requires inside { x < length labels.old.items }
    ensures rehung { AreRehung labels.old.items labels.new.items }
    ensures tops { AreTopsKept labels.old.items labels.new.items }
    ensures top { get_or labels.new.items result 0 ≡ result }
    ensures low { result ≤ x }
    ensures one_tree { AreInOneTree labels.new.items x result }
    ensures joined { (pairs : List (ℕ × ℕ)) → AreLabels pairs
        (length labels.old.items) labels.old.items → AreJoined pairs x result }
{
    let mut at = x;
    'ways: while label_of(labels, at) != at {
        at = climb(labels, at);
    }
    at
}

/// Puts two nodes into one tree: the greater top comes to hang at the other.
fn join(labels: &mut Vec<u32>, a: u32, b: u32)
    requires trees { AreTrees labels.old.items }
    requires a_inside { a < length labels.old.items }
    requires b_inside { b < length labels.old.items }
    ensures { AreHung labels.old.items labels.new.items a b }
{
    let top_a = top_of(labels, a);
    let top_b = top_of(labels, b);
    if top_a < top_b {
        hang(labels, top_b, top_a);
    } else {
        hang(labels, top_a, top_b);
    }
}

fn pair_at(pairs: &[(u32, u32)], i: usize) -> (u32, u32)
    requires { i < length pairs.now }
    ensures { slice_get pairs.now i ≡ Some result }
{
    pairs[i]
}

// Joins the trees of each pair.
fn join_all(labels: &mut Vec<u32>, pairs: &[(u32, u32)])
    requires inside { AreInside pairs.now (length labels.old.items) }
    requires labels { AreLabels pairs.now (length labels.old.items) labels.old.items }
    ensures kept { AreLabels pairs.now (length labels.old.items) labels.new.items }
    ensures one_tree { (a b : ℕ) → Has pairs.now (a, b) → AreInOneTree labels.new.items a b }
{
    'pairs: for i in 0..pairs.len() {
        let pair = pair_at(pairs, i);
        join(labels, pair.0, pair.1);
    }
}

/// Hangs each node at the top of its tree.
fn settle(labels: &mut Vec<u32>)
    requires trees { AreTrees labels.old.items }
    requires few { length labels.old.items < 2 ^ 32 }
    ensures rehung { AreRehung labels.old.items labels.new.items }
    ensures settled { AreSettled labels.new.items (length labels.old.items) }
{
    'nodes: for x in 0..labels.len() {
        climb(labels, x as u32);
    }
}

/// For each node, from 0 to `count`, the least one that chains of pairs join it to. It goes once
/// over the pairs, and takes little more than constant time for each.
pub fn components(alloc: Global, count: usize, pairs: &[(u32, u32)]) -> Result<Vec<u32>, NoMemory>
    requires few { count < 2 ^ 32 }
    requires inside { AreInside pairs.now count }
    ensures { IfOk result (λ labels. AreComponents pairs.now count labels.items) }
{
    let mut labels = numbers_below(alloc, count)?;
    join_all(&mut labels, pairs);
    settle(&mut labels);
    Ok(labels)
}
