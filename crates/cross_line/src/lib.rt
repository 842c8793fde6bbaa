// One line's crossings, from the drawing's own numbers or of balls. The two jobs ask nothing of their caller.
#![tactic(auto)]

ghost use Rattle.std.specs.Prelude.{◌≡◌, ◌*◌, ◌<◌, ◌≤◌, ℕ, List, length, drop, get_or, IfOk};
ghost use Rattle.std.specs.Float.{nan};
ghost use Rattle.outcome.specs.Refusing.{number_of};
ghost use Rattle.cross_cuts.specs.Cuts.{Cut, fault, answered};
ghost use Rattle.cross_cuts.specs.Keys.{cut_of, Held};
ghost use Rattle.cross_answer.specs.Answer.{made_lists, Crossed};
ghost use Rattle.cross_answer.specs.Giving.{InRange};
ghost use Rattle.cross_line.specs.Lent.{shape_from};
ghost use Rattle.cross_balls.specs.Balls.{crossing_balls};
ghost use Rattle.cross_line.specs.Crossing.{good_probe, shape_cuts, crossing_shapes};
ghost use Rattle.cross_line.specs.Making.{Meets, Gatherable, Gathers};

use cross_answer::Counts;
use cross_cuts::{Met, SHAPES};
use cross_shapes::{Block, Probe, Shape, is_finite, is_zero};
use outcome::{Fault, Reason, need};

// The place of a fault of the line itself.
pub const LINE: usize = 65535;

// A drawing's shapes as they are lent: a byte a shape, and six numbers a shape.
#[derive(Clone, Copy, Drop)]
pub struct Drawing<'a> {
    pub kinds: &'a [u8],
    pub numbers: &'a [f64],
}

#[tactic(auto, using(crate::proofs::LentLaws::nan_is))]
pub fn number_at(numbers: &[f64], k: usize) -> f64
    ensures { result ≡ get_or numbers.now k nan }
{
    numbers.get(k).copied().unwrap_or(f64::NAN)
}

// The box whose numbers begin at n.
// Kept: by index, since where all six are there the list's length is looked at once.
fn block_at(numbers: &[f64], n: usize) -> Shape
    requires { n ≤ 1530 }
    ensures { result ≡ shape_from 255 (drop n numbers.now) }
{
    if n + 6 <= numbers.len() {
        return Shape::Block(Block {
            lx: numbers[n],
            ly: numbers[n + 1],
            lz: numbers[n + 2],
            hx: numbers[n + 3],
            hy: numbers[n + 4],
            hz: numbers[n + 5],
        });
    }
    Shape::Block(Block {
        lx: number_at(numbers, n),
        ly: number_at(numbers, n + 1),
        lz: number_at(numbers, n + 2),
        hx: number_at(numbers, n + 3),
        hy: number_at(numbers, n + 4),
        hz: number_at(numbers, n + 5),
    })
}

pub fn shape_at(drawing: Drawing<'_>, i: usize) -> Shape
    requires { (i < length drawing.kinds.now) × (i < 256) }
    ensures { result ≡ shape_from (get_or drawing.entry.kinds.now i 0) (drop (6 * i) drawing.entry.numbers.now) }
{
    let kind = drawing.kinds[i];
    let n = 6 * i;
    if kind == 255 {
        return block_at(drawing.numbers, n);
    }
    Shape::HalfSpace(kind, number_at(drawing.numbers, n))
}

#[tactic(auto, unfolding(crate::specs::Crossing::good_probe))]
pub fn good_probe(probe: Probe) -> bool
    ensures { result ≡ good_probe probe }
{
    (is_finite(probe.ox) && is_finite(probe.oy) && is_finite(probe.oz))
        && (is_finite(probe.dx) && is_finite(probe.dy) && is_finite(probe.dz))
        && !(is_zero(probe.dx) && is_zero(probe.dy) && is_zero(probe.dz))
}

// What the line meets of shape i: none where the shape is at fault. Each loop over shapes takes it in, or lines of half-spaces take half as
// long again.
#[inline(always)]
pub fn meet_at(probe: Probe, drawing: Drawing<'_>, i: usize) -> Option<Met>
    requires { (i < length drawing.kinds.now) × (i < 256) }
    ensures { cut_of result ≡ get_or (shape_cuts probe drawing.entry.kinds.now drawing.entry.numbers.now) i fault }
{
    cross_shapes::meet_shape(probe, shape_at(drawing, i))
}

// All n shapes or balls of one line, in turn, by what it meets of each: how many crossings there are, or the first at fault.
pub fn gather<F: Fn(usize) -> Option<Met>>(
    meet: F,
    n: usize,
    bytes: &mut [u8],
    keys: &mut [u64],
) -> Result<usize, usize>
    requires callable { (i : ℕ) → i < n → F.pre meet i }
    requires gatherable { Gatherable n bytes.old keys.old }
    ensures held { IfOk result (λ m. Held (length bytes.new) bytes.new keys.new n m) }
    ensures gathers { Gathers (F.post meet) (length bytes.old) n bytes.new keys.new result }
{
    let mut m = 0;
    for i in 0..n {
        let Some(met) = meet(i) else {
            return Err(i);
        };
        m = cross_cuts::add(met, i, m, bytes, keys);
    }
    Ok(m)
}

// The answer by way of these bytes and keys.
fn answer_in<F: Fn(usize) -> Option<Met>>(
    meet: F,
    n: usize,
    reason: Reason,
    bytes: &mut [u8],
    keys: &mut [u64],
    starts: &mut [u8],
    positions: &mut [i32],
    shapes: &mut [u16],
) -> Result<Counts, Fault>
    requires callable { (i : ℕ) → i < n → F.pre meet i }
    requires gatherable { Gatherable n bytes.old keys.old }
    ensures { (cuts : List Cut) → n ≡ length cuts → Meets (F.post meet) cuts → InRange cuts
        → Crossed (answered (number_of reason) cuts (length starts.old) (length positions.old) (length shapes.old))
        (made_lists starts.old positions.old shapes.old) result (made_lists starts.new positions.new shapes.new) }
{
    match gather(meet, n, bytes, keys) {
        Ok(m) => cross_answer::give(n, m, bytes, keys, starts, positions, shapes),
        Err(i) => Err(reason.at(i)),
    }
}

// The answer of both makers. Where there are few, shorter arrays are quicker to make.
fn answer<F: Fn(usize) -> Option<Met>>(
    meet: F,
    n: usize,
    reason: Reason,
    starts: &mut [u8],
    positions: &mut [i32],
    shapes: &mut [u16],
) -> Result<Counts, Fault>
    requires callable { (i : ℕ) → i < n → F.pre meet i }
    requires few { n ≤ 256 }
    ensures { (cuts : List Cut) → n ≡ length cuts → Meets (F.post meet) cuts → InRange cuts
        → Crossed (answered (number_of reason) cuts (length starts.old) (length positions.old) (length shapes.old))
        (made_lists starts.old positions.old shapes.old) result (made_lists starts.new positions.new shapes.new) }
{
    if n <= 64 {
        let mut bytes = [0u8; 64];
        let mut keys = [0u64; 128];
        return answer_in(
            meet, n, reason, &mut bytes, &mut keys, starts, positions, shapes,
        );
    }
    let mut bytes = [0u8; SHAPES];
    let mut keys = [0u64; 2 * SHAPES];
    answer_in(
        meet, n, reason, &mut bytes, &mut keys, starts, positions, shapes,
    )
}

// Crosses the shapes that are lent with one line.
pub fn cross(
    probe: Probe,
    drawing: Drawing<'_>,
    starts: &mut [u8],
    positions: &mut [i32],
    shapes: &mut [u16],
) -> Result<Counts, Fault>
    ensures { Crossed (crossing_shapes probe drawing.entry.kinds.now drawing.entry.numbers.now (length starts.old) (length positions.old) (length shapes.old))
        (made_lists starts.old positions.old shapes.old) result (made_lists starts.new positions.new shapes.new) }
{
    let n = drawing.kinds.len();
    need(n <= SHAPES, Reason::ShapeWrong, SHAPES)?;
    need(good_probe(probe), Reason::ShapeWrong, LINE)?;
    answer(
        |i| meet_at(probe, drawing, i),
        n,
        Reason::ShapeWrong,
        starts,
        positions,
        shapes,
    )
}

// Crosses the balls that are lent with one line, which is parallel to an axis.
pub fn cross_balls(
    balls: &[i32],
    starts: &mut [u8],
    positions: &mut [i32],
    shapes: &mut [u16],
) -> Result<Counts, Fault>
    ensures { Crossed (crossing_balls balls.now (length starts.old) (length positions.old) (length shapes.old))
        (made_lists starts.old positions.old shapes.old) result (made_lists starts.new positions.new shapes.new) }
{
    let n = balls.len().div_ceil(4);
    need(n <= SHAPES, Reason::BallWrong, SHAPES)?;
    answer(
        |i| cross_balls::meet_at(balls, i),
        n,
        Reason::BallWrong,
        starts,
        positions,
        shapes,
    )
}
