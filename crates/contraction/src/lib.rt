// The records of a dwarf tree, and what they say: rounds of contraction and the dwarf tree. See specs/.
#![tactic(auto)]

// A dwarf tree has at most so many nodes, and a formula so many codes.
pub const NODES: usize = 3072;

pub const CODES: usize = 2048;

// A dwarf tree's records, an entry a node, in three lists as they are given: its kind, and what it stands over.
#[derive(Drop)]
pub struct Records {
    pub kinds: [u16; NODES],
    pub firsts: [u16; NODES],
    pub seconds: [u16; NODES],
}
