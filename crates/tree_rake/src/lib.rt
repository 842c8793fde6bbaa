// Rake: takes every leaf of a tree away, judged as the round found it, in one pass over its tokens.
#![tactic(auto)]

ghost use Rattle.std.specs.Prelude.{◌≡◌, ◌+◌, ◌≤◌, ◌<◌, length};
ghost use Rattle.contraction.specs.Entries.{entry};
ghost use Rattle.tree_tokens.specs.Tokens.{decode, Long};
ghost use Rattle.tree_rake.specs.Raking.{kept, makes, rake_token, raking_in, RakingRoom, RakingStep, RakedTo};

use contraction::{CODES, NODES, Records};
use tree_tokens::{ABSENT, E, Extent, FIRST_OPERATION, FIRST_SINGLE, R_LEFT, R_RIGHT, Record, S};

// How far the stack, the tokens out and the records are filled.
#[derive(Clone, Copy, Drop)]
struct RakingFills {
    top: usize,
    at: usize,
    next: u16,
}

// Puts a token out; its tree waits, and this step does not rake it.
#[tactic(auto, using(crate::proofs::StepsLaws::view_keep))]
fn keep(t: u16, out: &mut [u16; CODES], st: &mut [u16; CODES], m: RakingFills) -> RakingFills
    requires { (m.top < CODES) × (m.at < CODES) }
    ensures by_index { (rs : Records) → raking_in out.new st.new rs result ≡ kept (decode t) (raking_in out.old st.old rs m) }
    ensures top_value { (result.top ≡ m.top + 1) × (result.at ≡ m.at + 1) × (result.next ≡ m.next) }
{
    tree_tokens::put_token(t, out, m.at);
    // Kept: no array of `Option<u16>` is the stack, since it would take 4 KB more of what docs/TRUST.md counts. ABSENT is no dwarf node.
    st[m.top] = ABSENT;
    RakingFills {
        top: m.top + 1,
        at: m.at + 1,
        ..m
    }
}

// The same, with a record.
#[tactic(auto, using(crate::proofs::StepsLaws::view_make))]
fn make(
    node: Record,
    t: u16,
    out: &mut [u16; CODES],
    st: &mut [u16; CODES],
    records: &mut Records,
    m: RakingFills,
) -> RakingFills
    requires raking_room { RakingRoom m }
    ensures long { Long records.new }
    ensures result_after { raking_in out.new st.new records.new result
        ≡ makes (entry node.kind node.first node.second) (decode t) (raking_in out.old st.old records.old m) }
    ensures top_value { (result.top ≡ m.top + 1) × (result.at ≡ m.at + 1) × (result.next ≡ m.next + 1) }
{
    tree_tokens::put_record(node, records, m.next);
    let more = RakingFills {
        next: m.next + 1,
        ..m
    };
    keep(t, out, st, more)
}

// A one-child node: its operand is the last on the stack.
fn rake_one(
    t: u16,
    out: &mut [u16; CODES],
    st: &mut [u16; CODES],
    records: &mut Records,
    m: RakingFills,
) -> RakingFills
    requires raking_room { RakingRoom m }
    requires le_t { (FIRST_SINGLE ≤ t) × (t < FIRST_OPERATION) }
    ensures long { Long records.old → Long records.new }
    ensures raking_step { RakingStep (rake_token (raking_in out.old st.old records.old m) (decode t)) (raking_in out.new st.new records.new result) m result }
{
    if m.top < 1 {
        return m;
    }
    let low = RakingFills {
        top: m.top - 1,
        ..m
    };
    match st[m.top - 1] {
        ABSENT => keep(t, out, st, low),
        v => {
            let node = Record {
                kind: S,
                first: t - FIRST_SINGLE,
                second: v,
            };
            make(node, m.next, out, st, records, low)
        }
    }
}

// A two-child node: its operands are the last two on the stack, the left one a under the right one b.
#[tactic(auto, using(crate::proofs::StepsLaws::two_right, crate::proofs::StepsLaws::two_left, crate::proofs::StepsLaws::two_both))]
fn rake_two(
    t: u16,
    out: &mut [u16; CODES],
    st: &mut [u16; CODES],
    records: &mut Records,
    m: RakingFills,
) -> RakingFills
    requires raking_room { RakingRoom m }
    requires le_t { FIRST_OPERATION ≤ t }
    ensures long { Long records.old → Long records.new }
    ensures raking_step { RakingStep (rake_token (raking_in out.old st.old records.old m) (decode t)) (raking_in out.new st.new records.new result) m result }
{
    if m.top < 2 {
        return m;
    }
    let low = RakingFills {
        top: m.top - 2,
        ..m
    };
    let o = t - FIRST_OPERATION;
    let leaf = m.next;
    let one = FIRST_SINGLE + m.next;
    let (kind, first, second, left) = match (st[m.top - 2], st[m.top - 1]) {
        (ABSENT, ABSENT) => return keep(t, out, st, low),
        (ABSENT, b) => (R_RIGHT + o, b, ABSENT, one),
        (a, ABSENT) => (R_LEFT + o, a, ABSENT, one),
        (a, b) => (E + o, a, b, leaf),
    };
    let node = Record {
        kind,
        first,
        second,
    };
    make(node, left, out, st, records, low)
}

// One token.
#[tactic(auto, using(crate::proofs::StepsLaws::bare_step))]
fn rake_token(
    t: u16,
    out: &mut [u16; CODES],
    st: &mut [u16; CODES],
    records: &mut Records,
    m: RakingFills,
) -> RakingFills
    requires raking_room { RakingRoom m }
    ensures long { Long records.old → Long records.new }
    ensures raking_step { RakingStep (rake_token (raking_in out.old st.old records.old m) (decode t)) (raking_in out.new st.new records.new result) m result }
{
    if t < FIRST_SINGLE {
        st[m.top] = t;
        RakingFills {
            top: m.top + 1,
            ..m
        }
    } else if t < FIRST_OPERATION {
        rake_one(t, out, st, records, m)
    } else {
        rake_two(t, out, st, records, m)
    }
}

// Rakes the tree of these tokens: the tokens of what is left, and the records made.
pub fn rake(
    tokens: &[u16],
    out: &mut [u16; CODES],
    st: &mut [u16; CODES],
    records: &mut Records,
    next: u16,
) -> Extent
    requires tokens_few { (length tokens.now ≤ CODES) × (next + length tokens.now ≤ NODES) }
    ensures at_le_n { result.at ≤ length tokens.now }
    ensures long { Long records.old → Long records.new }
    ensures raked_to { RakedTo tokens.now next records.old out.new records.new result }
{
    let mut m = RakingFills {
        top: 0,
        at: 0,
        next,
    };
    for &t in tokens {
        m = rake_token(t, out, st, records, m);
    }
    Extent {
        at: m.at,
        next: m.next,
    }
}
