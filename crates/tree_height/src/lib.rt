// The height of a dwarf tree, by one pass over its records.
#![tactic(auto)]

ghost use Rattle.std.specs.Prelude.{◌≡◌, ◌+◌, ◌≤◌, ◌<◌, length, get_or};
ghost use Rattle.contraction.specs.Height.{height as height_of, path as path_of};
ghost use Rattle.contraction.specs.Entries.{entry, rec_of};
ghost use Rattle.tree_tokens.specs.Tokens.{recs_in, Long};
ghost use Rattle.tree_height.specs.Paths.{Low};

use contraction::{NODES, Records};
use tree_tokens::{LEAF, R_LEFT, Record, S};

// A step to node c, and the longest path from there. Of nodes not yet worked out nothing is known: no record stands over one.
fn through(paths: &[u16], c: u16) -> u16
    requires { (length paths.now < NODES) × Low paths.now }
    ensures { (result ≡ get_or paths.now c 0 + 1) × (result ≤ length paths.now + 1) }
{
    paths.get(usize::from(c)).copied().unwrap_or(0) + 1
}

// The longest path down from a node with this record, where those of the nodes before it are worked out.
#[tactic(auto, using(crate::proofs::PathLaws::path_leaf, crate::proofs::PathLaws::path_E, crate::proofs::PathLaws::path_R, crate::proofs::PathLaws::path_pair))]
fn path(paths: &[u16], node: Record) -> u16
    requires { (length paths.now < NODES) × Low paths.now }
    ensures { (result ≡ path_of paths.now (rec_of (entry node.kind node.first node.second))) × (result ≤ length paths.now + 1) }
{
    match node.kind {
        LEAF => 0,
        R_LEFT..S => through(paths, node.first),
        _ => through(paths, node.first).max(through(paths, node.second)),
    }
}

// The height of the tree of the first n records: the longest path from the last of them. A caller learns how long the arrays are.
pub fn height(records: &Records, n: usize) -> u16
    requires { n ≤ NODES }
    ensures height_is { result ≡ height_of (recs_in records.now n) }
    ensures long { Long records.now }
{
    let mut paths = [0u16; NODES];
    let mut last = 0;
    for i in 0..n {
        let node = Record {
            kind: records.kinds[i],
            first: records.firsts[i],
            second: records.seconds[i],
        };
        last = path(&paths[..i], node);
        paths[i] = last;
    }
    last
}
