// The bits of a word: the lowest that is on, the others, and one more.
#![tactic(auto)]

ghost use Rattle.std.specs.Prelude.{◌≡◌, ◌<◌};
ghost use Rattle.word_bits.specs.Words.{bit, WithBit};
ghost use Rattle.word_bits.specs.Lowest.{Lowest, Others};

// Bit j is on.
#[tactic(auto, using(crate::proofs::Digits::shift_bit))]
pub fn is_on(w: u64, j: usize) -> bool
    requires { j < 64 }
    ensures { result ≡ bit w j }
{
    (w >> j) % 2 == 1
}

// The lowest bit that is on.
#[tactic(auto, using(crate::proofs::LowestLaws::lowest_is, crate::proofs::LowestLaws::lowest_fits))]
pub fn lowest(d: u64) -> usize
    requires { 0 < d }
    ensures { Lowest d result }
{
    d.trailing_zeros() as usize
}

// All bits that are on but the lowest.
#[tactic(auto, using(crate::proofs::OthersLaws::others_are))]
pub fn others(d: u64) -> u64
    ensures { Others d result }
{
    d & d.wrapping_sub(1)
}

// The word with bit j put on, if it is to be.
#[tactic(auto, using(crate::proofs::OneBit::with_bit_is))]
pub fn with_bit(w: u32, j: usize, on: bool) -> u32
    requires { j < 32 }
    ensures { WithBit w j on result }
{
    w | (u32::from(on) << j)
}
