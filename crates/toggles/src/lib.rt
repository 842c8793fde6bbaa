// One toggle: all leaves of a shape flipped, then the nodes above them reworked in rising number.
#![tactic(auto)]

ghost use Rattle.std.specs.Prelude.{◌≡◌, ◌<◌, ◌≤◌, take};
ghost use Rattle.contraction.specs.Entries.{recs};
ghost use Rattle.rising_set.specs.Members.{Rising};
ghost use Rattle.labels.specs.Linked.{Ready};
ghost use Rattle.toggle_passes.specs.Reworking.{steps};
ghost use Rattle.toggles.specs.Toggles.{flip as flip_of, toggle as toggle_of};
ghost use Rattle.toggles.specs.Flipping.{Bare, AddedNode, Toggles, Flipped};

use contraction::NODES;
use labels::{DwarfTree, HEADS, NEXTS};
use rising_set::{RisingSet, WORDS};

// The other bit.
fn flip(v: u8) -> u8
    ensures { result ≡ flip_of v }
{
    u8::from(v == 0)
}

// Puts node p into the set, where there is such a node.
fn put_node(words: &mut [u64; WORDS], m: RisingSet, p: usize, nodes: usize) -> RisingSet
    requires { Rising words.old m × (m.at ≡ 0) × (nodes ≤ NODES) }
    ensures { AddedNode nodes p words.old m words.new result }
{
    if p < nodes { m.put_in(words, p) } else { m }
}

// The leaves of a shape flipped, from its first leaf on, and the nodes above them put into an empty set.
fn flip_leaves(
    tree: DwarfTree<'_>,
    labels: &mut [u8; NODES],
    words: &mut [u64; WORDS],
    s: usize,
) -> RisingSet
    requires { let r = tree.records.now in
        Ready r.kinds r.firsts r.seconds tree.size.leaves tree.size.nodes tree.links.now × (s < 256) × Bare words.old RisingSet.EMPTY }
    ensures { let r = tree.entry.records.now in
        Flipped r.kinds r.firsts r.seconds tree.entry.size.leaves tree.entry.size.nodes s labels.old labels.new words.new result }
{
    let mut a = usize::from(tree.links[HEADS + s]);
    let mut m = RisingSet::EMPTY;
    // Kept: along the links, which no iterator of the library follows.
    while a < tree.size.leaves {
        labels[a] = flip(labels[a]);
        m = put_node(words, m, usize::from(tree.links[a]), tree.size.nodes);
        a = usize::from(tree.links[NEXTS + a]);
    }
    m
}

// A toggle of shape s, which stands at several leaves. The number of nodes reworked.
fn toggle_many(tree: DwarfTree<'_>, labels: &mut [u8; NODES], s: usize) -> u32
    requires { let r = tree.records.now in
        Toggles tree.rules.now r.kinds r.firsts r.seconds tree.size.leaves tree.size.nodes tree.links.now labels.old s }
    ensures { let r = tree.entry.records.now in let nodes = tree.entry.size.nodes in
        steps (take nodes labels.new) result ≡ toggle_of (recs r.kinds r.firsts r.seconds 0 nodes) s (take nodes labels.old) }
{
    let mut words = [0u64; WORDS];
    let members = flip_leaves(tree, labels, &mut words, s);
    toggle_passes::settle(tree, labels, &mut words, members)
}

// A toggle of shape s. The number of nodes reworked. Above a single leaf one node at a time is due, and no set is needed.
pub fn toggle(tree: DwarfTree<'_>, labels: &mut [u8; NODES], s: usize) -> u32
    requires { let r = tree.records.now in
        Toggles tree.rules.now r.kinds r.firsts r.seconds tree.size.leaves tree.size.nodes tree.links.now labels.old s }
    ensures { let r = tree.entry.records.now in let nodes = tree.entry.size.nodes in
        steps (take nodes labels.new) result ≡ toggle_of (recs r.kinds r.firsts r.seconds 0 nodes) s (take nodes labels.old) }
{
    let a = usize::from(tree.links[HEADS + s]);
    if tree.size.leaves <= a {
        return 0;
    }
    let b = usize::from(tree.links[NEXTS + a]);
    if b < tree.size.leaves {
        return toggle_many(tree, labels, s);
    }
    labels[a] = flip(labels[a]);
    toggle_passes::walk(tree, labels, a)
}
