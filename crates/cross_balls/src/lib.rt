// A ball beside a line that is parallel to an axis: where the line meets it.
#![tactic(auto)]

ghost use Rattle.std.specs.Prelude.{◌≡◌, ◌*◌, ◌<◌, ◌≤◌, pos, length, get_or, Some};
ghost use Rattle.cross_ranks.specs.Ranks.{unrank};
ghost use Rattle.cross_cuts.specs.Cuts.{fault};
ghost use Rattle.cross_cuts.specs.Keys.{cut_of};
ghost use Rattle.cross_balls.specs.Balls.{within, in_ranges, squared, chord_cut, ball_cut, ball_cuts};
ghost use Rattle.cross_balls.specs.Small.{Small};

use cross_cuts::Met;

// The rank of 0, and how large offsets, radius and centre may be.
const MIDDLE: u32 = 1 << 31;

const OFFSET: u32 = 1_000_000;

const RADIUS: u32 = 1_000_000;

const CENTRE: u32 = 1_000_000_000;

// A ball, each number by its rank: two offsets of line from centre, the radius, and the centre along the line.
#[derive(Clone, Copy, Drop)]
struct Ball {
    u: u32,
    v: u32,
    radius: u32,
    centre: u32,
}

#[tactic(auto, using(crate::proofs::BallLaws::within_is))]
fn in_range(rank: u32, low: u32, high: u32) -> bool
    ensures { result ≡ within (unrank low) (unrank high) (unrank rank) }
{
    low <= rank && rank <= high
}

// No branch: the four are compared at once.
#[tactic(auto, unfolding(crate::specs::Balls::in_ranges))]
fn in_ranges(ball: Ball) -> bool
    ensures { result ≡ in_ranges (unrank ball.u) (unrank ball.v) (unrank ball.radius) (unrank ball.centre) }
{
    let u = in_range(ball.u, MIDDLE - OFFSET, MIDDLE + OFFSET);
    let v = in_range(ball.v, MIDDLE - OFFSET, MIDDLE + OFFSET);
    let radius = in_range(ball.radius, MIDDLE + 1, MIDDLE + RADIUS);
    let centre = in_range(ball.centre, MIDDLE - CENTRE, MIDDLE + CENTRE);
    u & v & radius & centre
}

// The square of the number that a rank of a small number stands for. By either side of the middle, which takes three instructions a ball less
// than `abs_diff`.
fn square(rank: u32) -> u64
    requires { (2146483648 ≤ rank) × (rank ≤ 2148483648) }
    ensures { (result ≡ squared (unrank rank)) × (result ≤ 1000000000000) }
{
    if rank < MIDDLE {
        let size = u64::from(MIDDLE - rank);
        return size * size;
    }
    let size = u64::from(rank - MIDDLE);
    size * size
}

// A ball whose numbers are in range: it is met where the half chord is not 0.
fn meet_chord(ball: Ball) -> Met
    requires { Small ball.u ball.v ball.radius ball.centre }
    ensures { cut_of (Some result) ≡ chord_cut (unrank ball.u) (unrank ball.v) (unrank ball.radius) (unrank ball.centre) }
{
    let off = square(ball.u) + square(ball.v);
    let whole = square(ball.radius);
    if whole < off {
        return Met::Never(false);
    }
    let half = cross_root::root(whole - off);
    if half == 0 {
        return Met::Never(false);
    }
    let at = u64::from(ball.centre);
    Met::Twice((at - half) as u32, (at + half) as u32)
}

fn meet_ball(ball: Ball) -> Option<Met>
    ensures { cut_of result ≡ ball_cut (unrank ball.u) (unrank ball.v) (unrank ball.radius) (unrank ball.centre) }
{
    if in_ranges(ball) {
        return Some(meet_chord(ball));
    }
    None
}

fn rank_at(numbers: &[i32], k: usize) -> u32
    requires { k < length numbers.now }
    ensures { unrank result ≡ get_or numbers.now k (pos 0) }
{
    cross_ranks::rank_of(numbers[k])
}

// The i-th ball, from 0; one that is only begun is at fault. How many are whole is the same for each, so that a loop asks it once.
pub fn meet_at(numbers: &[i32], i: usize) -> Option<Met>
    requires { (4 * i < length numbers.now) × (i < 256) }
    ensures { cut_of result ≡ get_or (ball_cuts numbers.now) i fault }
{
    let k = 4 * i;
    if numbers.len() / 4 <= i {
        return None;
    }
    meet_ball(Ball {
        u: rank_at(numbers, k),
        v: rank_at(numbers, k + 1),
        radius: rank_at(numbers, k + 2),
        centre: rank_at(numbers, k + 3),
    })
}
