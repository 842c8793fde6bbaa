// The arrays that the passes of a contraction share: tokens and records put one after the other.
#![tactic(auto)]

ghost use Rattle.std.specs.Prelude.{◌≡◌, [], ◌∷◌, ◌++◌, ◌+◌, ◌<◌};
ghost use Rattle.contraction.specs.Entries.{entry};
ghost use Rattle.tree_tokens.specs.Tokens.{decode, toks, entries_in, Long};

use contraction::{CODES, NODES, Records};

// A record's kind by its number, as the lists that are given hold it. Of E and of R it is the least, for the operation 0.
pub const LEAF: u16 = 0;

pub const E: u16 = 1;

pub const R_LEFT: u16 = 5;

pub const R_RIGHT: u16 = 9;

pub const S: u16 = 13;

pub const C: u16 = 14;

// Where a record stands over no second node.
pub const ABSENT: u16 = 65535;

// A token is a leaf's dwarf root as it is, a one-child node's added to this, or an operation's code.
pub const FIRST_SINGLE: u16 = 4096;

pub const FIRST_OPERATION: u16 = 0xFFF0;

// A dwarf node's record.
#[derive(Clone, Copy, Drop)]
pub struct Record {
    pub kind: u16,
    pub first: u16,
    pub second: u16,
}

// How far the tokens and the records are filled.
#[derive(Clone, Copy, Drop)]
pub struct Extent {
    pub at: usize,
    pub next: u16,
}

// Puts a token behind the first `at`.
pub fn put_token(t: u16, out: &mut [u16; CODES], at: usize)
    requires { at < CODES }
    ensures at_after { toks out.new (at + 1) ≡ toks out.old at ++ (decode t ∷ []) }
{
    out[at] = t;
}

// Puts a record behind the first `next`.
#[tactic(auto, using(crate::proofs::TokensLaws::entries_put))]
pub fn put_record(node: Record, records: &mut Records, next: u16)
    requires next_bound { next < NODES }
    ensures long { Long records.new }
    ensures next_after { entries_in records.new (next + 1)
        ≡ entries_in records.old next ++ (entry node.kind node.first node.second ∷ []) }
{
    let i = usize::from(next);
    records.kinds[i] = node.kind;
    records.firsts[i] = node.first;
    records.seconds[i] = node.second;
}
