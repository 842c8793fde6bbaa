// Bits of words: from one to the next, the last, and bytes woven into them.
#![tactic(auto)]

ghost use Rattle.std.specs.Prelude.{◌+◌, ◌^◌, ◌≤◌, ◌<◌, length};
ghost use Rattle.line_bits.specs.Bits.{Inner, Spans, Moved, Masked, Since, Binary, Woven};

const TOP: u64 = 0x8000_0000_0000_0000;

// The bits of w that are off, but for the last: no span ends at them.
#[tactic(auto, using(crate::proofs::Spans::inners))]
pub fn inner(w: u64) -> u64
    ensures { Inner w result }
{
    !(w | TOP)
}

// From the bit that is on in `one` to the first one that is off in `rest`: those that the carry of a sum flips.
#[tactic(auto, using(crate::proofs::Spans::spans))]
pub fn span(rest: u64, one: u64) -> u64
    requires { (rest < 2 ^ 63) × (one ≤ 2 ^ 63) }
    ensures { Spans rest one result }
{
    (rest + one) ^ rest
}

// The bits of a word one further up.
#[tactic(auto, using(crate::proofs::Spans::moved_one))]
pub fn moved(one: u64) -> u64
    ensures { Moved one result }
{
    one << 1
}

// The bits of m or none, by the last bit of w.
#[tactic(auto, using(crate::proofs::Spans::masked_on, crate::proofs::Spans::masked_off))]
pub fn masked(w: u64, m: u64) -> u64
    ensures { Masked w m result }
{
    if word_bits::is_on(w, 63) { m } else { 0 }
}

// The bit after the last one that is on; or 0, if there is none.
#[tactic(auto, using(crate::proofs::Spans::since_is))]
pub fn after_last(w: u64) -> usize
    ensures { Since w result }
{
    64 - w.leading_zeros() as usize
}

// Eight bytes from s on, each 0 or 1: byte j is bit 8 j. One load.
#[tactic(auto, using(crate::proofs::Weaves::weave_8))]
fn woven_8(bytes: &[u8], s: usize) -> u64
    requires { Binary bytes.now × (s + 8 ≤ length bytes.now) }
    ensures { Woven bytes.now s 8 1 result }
{
    u64::from_le_bytes([
        bytes[s],
        bytes[s + 1],
        bytes[s + 2],
        bytes[s + 3],
        bytes[s + 4],
        bytes[s + 5],
        bytes[s + 6],
        bytes[s + 7],
    ])
}

// 32 bytes from s on, each 0 or 1, woven into a word: byte j + 8 i is bit 8 j + i.
#[tactic(auto, using(crate::proofs::Weaves::weave_on))]
pub fn woven_32(bytes: &[u8], s: usize) -> u64
    requires { Binary bytes.now × (s + 32 ≤ length bytes.now) }
    ensures { Woven bytes.now s 8 4 result }
{
    woven_8(bytes, s)
        | woven_8(bytes, s + 8) << 1
        | woven_8(bytes, s + 16) << 2
        | woven_8(bytes, s + 24) << 3
}
