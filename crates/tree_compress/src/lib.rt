// Compress: pairs each longest chain of one-child nodes from the top, in one pass over the tokens of a tree.
#![tactic(auto)]

ghost use Rattle.std.specs.Prelude.{◌≡◌, map, take_while, ◌+◌, ◌≤◌, ◌<◌, length};
ghost use Rattle.tree_tokens.specs.Tokens.{decode, Long};
ghost use Rattle.tree_compress.specs.Pairing.{is_single, chain_length, puts, pairs, pair_token, Counted, pairing_in, PairingRoom, PairingStep, CompressedTo};

use contraction::{CODES, NODES, Records};
use tree_tokens::{C, Extent, FIRST_OPERATION, FIRST_SINGLE, Record};

// The lower node of a pair, and how far the tokens out and the records are filled.
#[derive(Clone, Copy, Drop)]
struct PairingFills {
    held: Option<u16>,
    at: usize,
    next: u16,
}

// How many one-child nodes stand at the front.
fn chain_length(tokens: &[u16]) -> usize
    ensures { result ≡ length (take_while is_single tokens.now) }
{
    tokens
        .iter()
        .take_while(|t| FIRST_SINGLE <= **t && **t < FIRST_OPERATION)
        .count()
}

// The same, where k, unless it is 0, is the answer already: each run is counted once.
#[tactic(auto, using(crate::proofs::StepsLaws::chain_run))]
fn chain_left(tokens: &[u16], k: usize) -> usize
    requires { Counted tokens.now k }
    ensures { result ≡ chain_length (map decode tokens.now) }
{
    if k == 0 { chain_length(tokens) } else { k }
}

// Puts a token out as it is.
#[tactic(auto, using(crate::proofs::StepsLaws::view_put))]
fn put_out(t: u16, out: &mut [u16; CODES], m: PairingFills) -> PairingFills
    requires { m.at < CODES }
    ensures by_index { ((rs : Records) → pairing_in out.new rs result ≡ puts (decode t) (pairing_in out.old rs m)) × (result.at ≡ m.at + 1) × (result.next ≡ m.next) }
{
    tree_tokens::put_token(t, out, m.at);
    PairingFills {
        held: None,
        at: m.at + 1,
        ..m
    }
}

// A pair becomes one node, with a C node over upper and lower.
fn pair_up(
    upper: u16,
    lower: u16,
    out: &mut [u16; CODES],
    records: &mut Records,
    m: PairingFills,
) -> PairingFills
    requires pairing_room { PairingRoom m }
    ensures long { Long records.new }
    ensures result_after { (pairing_in out.new records.new result ≡ pairs upper lower (pairing_in out.old records.old m)) × (result.at ≡ m.at + 1) × (result.next ≡ m.next + 1) }
{
    tree_tokens::put_token(FIRST_SINGLE + m.next, out, m.at);
    let node = Record {
        kind: C,
        first: upper,
        second: lower,
    };
    tree_tokens::put_record(node, records, m.next);
    PairingFills {
        held: None,
        at: m.at + 1,
        next: m.next + 1,
    }
}

// One token, at the front of a run of k.
fn compress_token(
    t: u16,
    k: usize,
    out: &mut [u16; CODES],
    records: &mut Records,
    m: PairingFills,
) -> PairingFills
    requires pairing_room { PairingRoom m }
    ensures long { Long records.old → Long records.new }
    ensures pairing_step { PairingStep (pair_token (pairing_in out.old records.old m) (decode t) k) (pairing_in out.new records.new result) m result }
{
    if t < FIRST_SINGLE || FIRST_OPERATION <= t {
        return put_out(t, out, m);
    }
    let node = t - FIRST_SINGLE;
    match m.held {
        Some(lower) => pair_up(node, lower, out, records, m),
        None if k % 2 == 0 => PairingFills {
            held: Some(node),
            ..m
        },
        None => put_out(t, out, m),
    }
}

// Compresses the tree of these tokens: the tokens of what is left, and the records made.
#[tactic(auto, using(crate::proofs::StepsLaws::pairing_end))]
pub fn compress(tokens: &[u16], out: &mut [u16; CODES], records: &mut Records, next: u16) -> Extent
    requires tokens_few { (length tokens.now ≤ CODES) × (next + length tokens.now ≤ NODES) }
    ensures at_le_n { result.at ≤ length tokens.now }
    ensures long { Long records.old → Long records.new }
    ensures compressed_to { CompressedTo tokens.now next records.old out.new records.new result }
{
    let mut m = PairingFills {
        held: None,
        at: 0,
        next,
    };
    let mut k = 0;
    for (i, &t) in tokens.iter().enumerate() {
        let left = chain_left(&tokens[i..], k);
        m = compress_token(t, left, out, records, m);
        k = left.saturating_sub(1);
    }
    Extent {
        at: m.at,
        next: m.next,
    }
}
