// What a line meets of each shape, gathered: the start row's bytes, and a key for each crossing.
#![tactic(auto)]

ghost use Rattle.std.specs.Prelude.{◌≡◌, ◌+◌, ◌*◌, ◌<◌, length, Some};
ghost use Rattle.cross_cuts.specs.Keys.{cut_of, key_of, Held, Adds, Elsewhere};

// The most shapes that a line may meet.
pub const SHAPES: usize = 256;

// What a line meets of a shape that is not at fault: whether it starts inside, with no, one or two crossings, each by its rank.
#[derive(Clone, Copy, Debug, PartialEq, Eq)]
pub enum Met {
    Never(bool),
    Once(bool, u32),
    Twice(u32, u32),
}

fn key(rank: u32, shape: usize) -> u64
    requires { shape < 256 }
    ensures { result ≡ key_of rank shape }
{
    u64::from(rank) * SHAPES as u64 + shape as u64
}

// Kept: start bytes and keys are two lists, since a struct of two `&mut` says no more than their names and would be lent anew at each call.
// Takes in what is met of shape i, where m crossings are there: so many are there now.
#[tactic(auto, using(crate::proofs::GatherLaws::one_start, crate::proofs::GatherLaws::second_room))]
pub fn add(met: Met, i: usize, m: usize, starts: &mut [u8], keys: &mut [u64]) -> usize
    requires { Held (length starts.old) starts.old keys.old i m × (i < 256) × (i < length starts.old) }
    ensures adds { Adds (length starts.old) (cut_of (Some met)) starts.old keys.old i m starts.new keys.new result }
    ensures elsewhere { Elsewhere i starts.old starts.new }
{
    match met {
        Met::Never(inside) => {
            starts[i] = u8::from(inside);
            m
        }
        Met::Once(inside, a) => {
            starts[i] = u8::from(inside);
            keys[m] = key(a, i);
            m + 1
        }
        Met::Twice(a, b) => {
            starts[i] = 0;
            keys[m] = key(a, i);
            keys[m + 1] = key(b, i);
            m + 2
        }
    }
}
