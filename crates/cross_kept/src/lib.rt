// One line of many over one drawing. Two axes of the line are put together and kept while both stay, with which of the shapes they leave
// over; the third, which stands alone, is asked of those, and the shapes are gathered as for one line.
#![tactic(auto)]

ghost use Rattle.std.specs.Prelude.{◌≡◌, true, ◌<◌, ◌≤◌, IsSomeAnd};
ghost use Rattle.cross_line.specs.Crossing.{good_probe};
ghost use Rattle.cross_kept.specs.Keeping.{starts_at, first, second, along_of, Numbers, Serves, Paired, remains, Leaves, CanPair, Keeps, Follows, Over, Crossed};

use cross_axis::{Along, Ranks, TOGETHER};
use cross_columns::{Columns, PART};
use cross_hits::{Alone, BLOCK, MASKS};
use cross_shapes::Probe;

// One of the three axes.
#[derive(Clone, Copy, Drop)]
pub enum Axis {
    X,
    Y,
    Z,
}

impl Axis {
    // Where its part starts.
    fn start(self) -> usize
        ensures { result ≡ starts_at self }
    {
        match self {
            Axis::X => 0,
            Axis::Y => PART,
            Axis::Z => 2 * PART,
        }
    }

    // The two others.
    fn first(self) -> Axis
        ensures { result ≡ first self }
    {
        match self {
            Axis::X => Axis::Y,
            Axis::Y => Axis::X,
            Axis::Z => Axis::X,
        }
    }

    fn second(self) -> Axis
        ensures { result ≡ second self }
    {
        match self {
            Axis::X => Axis::Z,
            Axis::Y => Axis::Z,
            Axis::Z => Axis::Y,
        }
    }

    // A line's numbers on it.
    fn along(self, probe: Probe) -> Along
        ensures { result ≡ along_of probe self }
    {
        match self {
            Axis::X => Along {
                origin: probe.ox,
                component: probe.dx,
            },
            Axis::Y => Along {
                origin: probe.oy,
                component: probe.dy,
            },
            Axis::Z => Along {
                origin: probe.oz,
                component: probe.dz,
            },
        }
    }
}

// What is kept of two axes that are together: their numbers; which one stands alone; how many shapes there are; of which sixteens the two
// leave something over, and of which of their shapes, by bits.
#[derive(Clone, Copy, Drop)]
pub struct Kept {
    pub one: Along,
    pub other: Along,
    pub alone: Axis,
    pub shapes: usize,
    pub left: u64,
    pub masks: [u32; MASKS],
}

// Whether the two axes that are kept are those of this line too.
fn serves(probe: Probe, kept: &Kept) -> bool
    requires { (good_probe probe ≡ true) × Numbers kept.now }
    ensures { Serves probe kept.now result }
{
    let one = cross_axis::same(kept.one, kept.alone.first().along(probe));
    let other = cross_axis::same(kept.other, kept.alone.second().along(probe));
    one & other
}

fn moves(probe: Probe, next: Probe, axis: Axis) -> bool {
    let here = axis.along(probe);
    let there = axis.along(next);
    (here.origin != there.origin) | (here.component != there.component)
}

// The axis that is to stand alone: one that is another at the next line, so that the two others may serve it.
fn choose(before: Axis, probe: Probe, next: Probe) -> Axis {
    for axis in [before, Axis::Z, Axis::Y, Axis::X] {
        if moves(probe, next, axis) {
            return axis;
        }
    }
    before
}

// Puts two axes together.
fn pair(one: usize, other: usize, shapes: usize, ranks: &mut Ranks)
    requires { (one ≤ 512) × (other ≤ 512) × (shapes ≤ 256) }
    ensures { Paired one other shapes ranks.old.lessers ranks.old.greaters ranks.new.lessers ranks.new.greaters }
{
    for i in 0..shapes {
        let a = one + i;
        let b = other + i;
        let together = TOGETHER + i;
        ranks.lessers[together] = ranks.lessers[a].max(ranks.lessers[b]);
        ranks.greaters[together] = ranks.greaters[a].min(ranks.greaters[b]);
    }
}

// Whether two axes leave shape i over.
fn remains(i: usize, columns: &Columns, ranks: &Ranks) -> bool
    requires { i < 256 }
    ensures { result ≡ remains columns.now.halves ranks.now.lessers ranks.now.greaters i }
{
    let together = TOGETHER + i;
    (columns.halves[i] != 0) | (ranks.lessers[together] < ranks.greaters[together])
}

// Which of the shapes two axes leave over; of which sixteens there are any.
fn leave(shapes: usize, columns: &Columns, ranks: &Ranks, masks: &mut [u32; MASKS]) -> u64
    requires { shapes ≤ 256 }
    ensures { Leaves columns.now.halves ranks.now.lessers ranks.now.greaters masks.new result shapes }
{
    let mut left = 0u32;
    for b in 0..shapes.div_ceil(BLOCK) {
        let start = BLOCK * b;
        let over = cross_hits::picked(|c| remains(start + c, columns, ranks));
        masks[b] = over;
        left = word_bits::with_bit(left, b, over != 0);
    }
    u64::from(left)
}

// The two axes beside the one that stands alone, filled and put together.
fn pair_axes(probe: Probe, alone: Axis, shapes: usize, columns: &Columns, ranks: &mut Ranks) -> Kept
    requires { CanPair probe shapes columns.now.halves columns.now.lows columns.now.highs ranks.old.lessers ranks.old.greaters }
    ensures { Follows probe shapes columns.now.halves columns.now.lows columns.now.highs ranks.new.lessers ranks.new.greaters result }
{
    let first = alone.first();
    let second = alone.second();
    let one = first.start();
    let other = second.start();
    let on_one = first.along(probe);
    let on_other = second.along(probe);
    cross_axis::fill(one, shapes, on_one, columns, ranks);
    cross_axis::fill(other, shapes, on_other, columns, ranks);
    pair(one, other, shapes, ranks);
    let mut masks = [0u32; MASKS];
    let left = leave(shapes, columns, ranks, &mut masks);
    Kept {
        one: on_one,
        other: on_other,
        alone,
        shapes,
        left,
        masks,
    }
}

// Two axes of line k anew.
fn take_up(
    probe: Probe,
    lines: &[f64],
    k: usize,
    before: Axis,
    shapes: usize,
    columns: &Columns,
    ranks: &mut Ranks,
) -> Kept
    requires k_bound { k < 4294967296 }
    requires can { CanPair probe shapes columns.now.halves columns.now.lows columns.now.highs ranks.old.lessers ranks.old.greaters }
    ensures { Follows probe shapes columns.now.halves columns.now.lows columns.now.highs ranks.new.lessers ranks.new.greaters result }
{
    let next = cross_drawn::probe_at(lines, k + 1);
    pair_axes(probe, choose(before, probe, next), shapes, columns, ranks)
}

// Keeps two axes of line k. Where those that are kept serve it nothing is written: a copy at each line was a tenth of the time.
pub fn keep(
    probe: Probe,
    lines: &[f64],
    k: usize,
    kept: &mut Option<Kept>,
    shapes: usize,
    columns: &Columns,
    ranks: &mut Ranks,
)
    requires k_bound { k < 4294967296 }
    requires can { CanPair probe shapes columns.now.halves columns.now.lows columns.now.highs ranks.old.lessers ranks.old.greaters }
    requires keeps { Keeps shapes columns.now.halves columns.now.lows columns.now.highs ranks.old.lessers ranks.old.greaters kept.old }
    ensures { IsSomeAnd kept.new (Follows probe shapes columns.now.halves columns.now.lows columns.now.highs ranks.new.lessers ranks.new.greaters) }
{
    let before = match kept {
        None => Axis::X,
        Some(kept) => {
            if serves(probe, kept) {
                return;
            }
            kept.alone
        }
    };
    *kept = Some(take_up(probe, lines, k, before, shapes, columns, ranks));
}

// What a line has of its shapes, over its axes.
pub fn over_axes(
    probe: Probe,
    kept: &Kept,
    columns: &Columns,
    ranks: &mut Ranks,
    bytes: &mut [u8],
    keys: &mut [u64],
) -> usize
    requires { Over probe kept.now columns.now.halves columns.now.lows columns.now.highs ranks.old.lessers ranks.old.greaters bytes.old keys.old }
    ensures { Crossed probe kept.now columns.now.halves columns.now.lows columns.now.highs ranks.new.lessers ranks.new.greaters bytes.new keys.new result }
{
    let alone = Alone {
        start: kept.alone.start(),
        along: kept.alone.along(probe),
        shapes: kept.shapes,
        left: kept.left,
    };
    cross_hits::gather(probe, alone, &kept.masks, columns, ranks, bytes, keys).unwrap_or(0)
}
