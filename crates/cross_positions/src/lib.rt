// The position of a face on a probe line, to the bit: the distance, each operation rounded once, and then the nearest whole number,
// halves to even, worked out from the bits.
#![tactic(auto)]

ghost use Rattle.std.specs.Prelude.{◌≡◌, ◌<◌, ◌^◌};
ghost use Rattle.std.specs.Float.Ieee.Nearest.{closest};
ghost use Rattle.cross_positions.specs.Positions.{distance, nearest_whole, in_range, position as position_of};
ghost use Rattle.cross_positions.specs.Found.{found_of};
ghost use Rattle.cross_positions.specs.Fields.{size_of};

// A float's digits stand below bit 52, its exponent's field above them, and its sign in bit 63.
const DIGITS: u64 = 1 << 52;

const SIGN: u64 = 1 << 63;

// The rank of position 0: no position has this size. The greatest position is two less.
const MIDDLE: u64 = 1 << 31;

const GREATEST: u64 = MIDDLE - 2;

// q / 2 ^ d to the nearest whole number, halves to even.
fn halved(q: u64, d: u64) -> u64
    requires q_bound { q < 2 ^ 53 }
    requires d_bound { d < 54 }
    ensures { result ≡ closest q (2 ^ d) }
{
    let unit = 1u64 << d;
    let n = q / unit;
    let twice = (q % unit) * 2;
    if twice < unit {
        return n;
    }
    if unit < twice {
        return n + 1;
    }
    n + n % 2
}

// The size of a number from its exponent's field and its digits, below 2 ^ 31 or else 2 ^ 31.
#[tactic(auto, unfolding(crate::specs::Fields::size_of))]
fn size_from(field: u64, digits: u64) -> u64
    requires { digits < 2 ^ 52 }
    ensures { result ≡ size_of field digits }
{
    if field < 1022 {
        return 0;
    }
    if 1053 < field {
        return MIDDLE;
    }
    halved(DIGITS + digits, 1075 - field)
}

// The rank of the whole number nearest to x, 2147483648 more than it, judged after rounding.
fn rounded(x: f64) -> Option<u32>
    ensures { found_of result ≡ in_range (nearest_whole x) }
{
    if x.is_nan() {
        return None;
    }
    let bits = x.to_bits();
    let size = size_from(bits % SIGN / DIGITS, bits % DIGITS);
    if bits < SIGN {
        if GREATEST < size {
            return None;
        }
        return Some((MIDDLE + size) as u32);
    }
    if MIDDLE <= size {
        return None;
    }
    Some((MIDDLE - size) as u32)
}

#[tactic(auto, using(crate::proofs::Rounding::thousand_is))]
pub fn distance_to(face: f64, origin: f64, component: f64) -> f64
    ensures { result ≡ distance face origin component }
{
    (face - origin) / component * 1000.0
}

// A face's position by its rank, where it has one that may be given.
pub fn position(face: f64, origin: f64, component: f64) -> Option<u32>
    ensures { found_of result ≡ position_of face origin component }
{
    rounded(distance_to(face, origin, component))
}
