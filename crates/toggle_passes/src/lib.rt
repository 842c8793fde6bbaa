// The passes that rework labels upwards: straight up above one node, and above the nodes of a set in rising number.
#![tactic(auto)]

ghost use Rattle.std.specs.Prelude.{◌≡◌, List, ℕ, suc, ◌-◌, ◌≤◌, take};
ghost use Rattle.contraction.specs.Entries.{recs};
ghost use Rattle.rising_set.specs.Members.{all};
ghost use Rattle.labels.specs.Linked.{Rules};
ghost use Rattle.toggle_passes.specs.Reworking.{steps, rework};
ghost use Rattle.toggle_passes.specs.Upwards.{Alone, Due, Climbs, Ripe, Settles, Settled};

use contraction::NODES;
use labels::DwarfTree;
use rising_set::{RisingSet, WORDS};

// The nodes reworked above one node whose label alone has changed: straight up, until a label comes out as it was. How many they are.
pub fn walk(tree: DwarfTree<'_>, labels: &mut [u8; NODES], node: usize) -> u32
    requires { let r = tree.records.now in
        Climbs tree.rules.now r.kinds r.firsts r.seconds tree.size.leaves tree.size.nodes tree.links.now labels.old node }
    ensures few { result ≤ tree.entry.size.nodes }
    ensures by_index { let r = tree.entry.records.now in let nodes = tree.entry.size.nodes in (old : List ℕ) → Alone nodes old labels.old node
        → steps (take nodes labels.new) result ≡ rework old (recs r.kinds r.firsts r.seconds (suc node) (nodes - suc node)) (suc node) (take nodes labels.old) }
{
    let mut p = usize::from(tree.links[node]);
    let mut count: u32 = 0;
    // Kept: up the links, which no iterator of the library follows, to the first label that comes out as it was.
    while p < tree.size.nodes {
        let v = labels::work(tree.rules, tree.records, labels, p);
        let worked = count + 1;
        if v == labels[p] {
            return worked;
        }
        labels[p] = v;
        count = worked;
        p = usize::from(tree.links[p]);
    }
    count
}

// Node k, the lowest of the set, reworked: it is taken out and, where its label changes, the node above it is put in.
fn rework_node(
    tree: DwarfTree<'_>,
    labels: &mut [u8; NODES],
    words: &mut [u64; WORDS],
    m: RisingSet,
    k: usize,
) -> RisingSet
    requires { Rules tree.rules.now × Ripe tree.size.nodes k tree.links.now words.old m }
    ensures { let r = tree.entry.records.now in
        Settled r.kinds r.firsts r.seconds tree.entry.size.nodes tree.entry.links.now k labels.old words.old m labels.new words.new result }
{
    let left = m.take_out(k);
    let v = labels::work(tree.rules, tree.records, labels, k);
    if v == labels[k] {
        return left;
    }
    labels[k] = v;
    let p = usize::from(tree.links[k]);
    if p < tree.size.nodes {
        return left.put_in(words, p);
    }
    left
}

// The nodes of the set reworked in rising number, and every node above one whose label changes. How many they are.
pub fn settle(
    tree: DwarfTree<'_>,
    labels: &mut [u8; NODES],
    words: &mut [u64; WORDS],
    members: RisingSet,
) -> u32
    requires { let r = tree.records.now in
        Settles tree.rules.now r.kinds r.firsts r.seconds tree.size.leaves tree.size.nodes tree.links.now labels.old words.old members }
    ensures { let r = tree.entry.records.now in let nodes = tree.entry.size.nodes in
        (old : List ℕ) (j : ℕ) → Due r.kinds r.firsts r.seconds nodes old labels.old (all words.old members) j
        → steps (take nodes labels.new) result ≡ rework old (recs r.kinds r.firsts r.seconds j (nodes - j)) j (take nodes labels.old) }
{
    let mut m = members.next(words);
    let mut count: u32 = 0;
    // Kept: until the set is empty, into which the body puts nodes.
    while m.word != 0 {
        let k = m.lowest();
        m = rework_node(tree, labels, words, m, k).next(words);
        count += 1;
    }
    count
}
