// The bridge between signed numbers and unsigned ones: all else counts without signs.
#![tactic(auto)]

ghost use Rattle.std.specs.Prelude.{◌≡◌};
ghost use Rattle.cross_ranks.specs.Ranks.{unrank};

const MIDDLE: i64 = 1 << 31;

// 2147483648 more than z.
pub fn rank_of(z: i32) -> u32
    ensures { unrank result ≡ z }
{
    (i64::from(z) + MIDDLE) as u32
}

// 2147483648 less than m.
pub fn position_of(m: u32) -> i32
    ensures { result ≡ unrank m }
{
    (i64::from(m) - MIDDLE) as i32
}
