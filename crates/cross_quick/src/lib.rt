// A face's position on a line without a branch: one sum of floats rounds to the nearest whole number.
#![tactic(auto)]

ghost use Rattle.std.specs.Prelude.{◌≡◌, true, false};
ghost use Rattle.std.proofs.Math.Option.{some};
ghost use Rattle.std.specs.Float.Ieee.{is_nan};
ghost use Rattle.cross_ranks.specs.Ranks.{unrank};
ghost use Rattle.cross_positions.specs.Positions.{nearest_whole};
ghost use Rattle.cross_quick.specs.Given.{given};

// Whether the whole number nearest to x may be given: -2147483647.5 goes to -2147483648, and 2147483646.5 to 2147483646.
#[tactic(auto, using(crate::proofs::Nearly::within_exit))]
pub fn within(x: f64) -> bool
    ensures { result ≡ given x }
{
    (-2147483647.5 < x) & (x <= 2147483646.5)
}

// The rank of the whole number nearest to x, if it may be given, halves to even: the sum with 3 * 2 ^ 51 + 2 ^ 31 has 53 digits before the
// point and none behind it, and the last 32 of them are the rank.
#[tactic(auto, using(crate::proofs::Nearly::number_exit, crate::proofs::Nearly::rank_exit))]
pub fn rank_of_nearest(x: f64) -> u32
    requires { is_nan x ≡ false }
    ensures { given x ≡ true → some (unrank result) ≡ nearest_whole x }
{
    (f64::to_bits(x + 6755401588539392.0) % 4294967296) as u32
}
