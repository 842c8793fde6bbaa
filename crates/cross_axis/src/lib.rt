// What one axis of a line says of boxes: a lesser and a greater rank each, with no branch in the loop.
#![tactic(auto)]

ghost use Rattle.std.specs.Prelude.{◌≡◌, ℕ, true, false, ◌≢◌, ◌+◌, ◌<◌, ◌≤◌, get_or};
ghost use Rattle.std.specs.Float.{nan};
ghost use Rattle.std.proofs.Math.Option.{none, some};
ghost use Rattle.cross_ranks.specs.Ranks.{unrank};
ghost use Rattle.cross_positions.specs.Positions.{position};
ghost use Rattle.cross_shapes.specs.Shapes.{finite, is_zero, wrong, axis_range};
ghost use Rattle.cross_axis.specs.Axes.{Codes, FiniteAlong, Fillable, Filled, Stepped, SameNumbers};

use cross_columns::{Columns, FACES, PART};

// The ranks are three parts, as the faces are, and a fourth for what two axes say together.
pub const TOGETHER: usize = FACES;

pub const RANKS: usize = FACES + PART;

// The line's two numbers on an axis.
#[derive(Clone, Copy, Drop)]
pub struct Along {
    pub origin: f64,
    pub component: f64,
}

// The lesser and the greater rank of each box on each axis.
#[derive(Drop)]
pub struct Ranks {
    pub lessers: [u32; RANKS],
    pub greaters: [u32; RANKS],
}

// The lesser and the greater rank of one box on one axis.
#[derive(Drop)]
struct Span {
    lesser: u32,
    greater: u32,
}

// The rank of a face where it has a position that may be given.
fn rank_of(face: f64, along: Along) -> u32
    requires face_value { (finite face ≡ true) × FiniteAlong along }
    requires component_value { is_zero along.component ≡ false }
    ensures upper_bound { result ≤ 4294967295 }
    ensures component_value_2 { position face along.origin along.component ≢ none → position face along.origin along.component ≡ some (unrank result) }
{
    let p = cross_positions::distance_to(face, along.origin, along.component);
    cross_quick::rank_of_nearest(p)
}

#[tactic(auto, using(crate::proofs::AxisLaws::slant_both))]
fn ranks_slant(low: f64, high: f64, along: Along) -> Span
    requires low_value { (finite low ≡ true) × ((finite high ≡ true) × FiniteAlong along) }
    requires component_value { is_zero along.component ≡ false }
    ensures { axis_range low high along.origin along.component ≢ wrong → Codes (axis_range low high along.origin along.component) result.lesser result.greater }
{
    let u = rank_of(low, along);
    let v = rank_of(high, along);
    Span {
        lesser: u.min(v),
        greater: u.max(v),
    }
}

#[tactic(auto, using(crate::proofs::AxisLaws::level_free, crate::proofs::AxisLaws::level_missed))]
fn ranks_level(low: f64, high: f64, along: Along) -> Span
    requires { is_zero along.component ≡ true }
    ensures { axis_range low high along.origin along.component ≢ wrong → Codes (axis_range low high along.origin along.component) result.lesser result.greater }
{
    if (low < along.origin) & (along.origin < high) {
        return Span {
            lesser: 0,
            greater: u32::MAX,
        };
    }
    Span {
        lesser: 0,
        greater: 0,
    }
}

// What the step says of each of the n boxes from `at` on.
fn fill_by<F: Fn(f64, f64) -> Span>(
    at: usize,
    n: usize,
    columns: &Columns,
    ranks: &mut Ranks,
    says: F,
)
    requires inside { at + n ≤ 768 }
    requires callable { (k : ℕ) → at ≤ k → k < at + n → F.pre says (get_or columns.now.lows k nan) (get_or columns.now.highs k nan) }
    ensures { Stepped (F.post says) columns.now.lows columns.now.highs at (at + n) ranks.old.lessers ranks.old.greaters ranks.new.lessers ranks.new.greaters }
{
    for k in at..at + n {
        let span = says(columns.lows[k], columns.highs[k]);
        ranks.lessers[k] = span.lesser;
        ranks.greaters[k] = span.greater;
    }
}

// Where the line is not level on the axis.
pub fn fill_slant(at: usize, n: usize, along: Along, columns: &Columns, ranks: &mut Ranks)
    requires fillable { Fillable at (at + n) along columns.now.lows columns.now.highs ranks.old.lessers ranks.old.greaters }
    requires component_value { is_zero along.component ≡ false }
    ensures { Filled columns.now.lows columns.now.highs at (at + n) along ranks.old.lessers ranks.old.greaters ranks.new.lessers ranks.new.greaters }
{
    fill_by(
        at,
        n,
        columns,
        ranks,
        |low, high| ranks_slant(low, high, along),
    );
}

// What the axis says of the n boxes from `at` on.
pub fn fill(at: usize, n: usize, along: Along, columns: &Columns, ranks: &mut Ranks)
    requires { Fillable at (at + n) along columns.now.lows columns.now.highs ranks.old.lessers ranks.old.greaters }
    ensures { Filled columns.now.lows columns.now.highs at (at + n) along ranks.old.lessers ranks.old.greaters ranks.new.lessers ranks.new.greaters }
{
    if cross_shapes::is_zero(along.component) {
        fill_by(
            at,
            n,
            columns,
            ranks,
            |low, high| ranks_level(low, high, along),
        );
        return;
    }
    fill_slant(at, n, along, columns, ranks);
}

#[tactic(auto, using(crate::proofs::AxisLaws::no_nan, crate::proofs::AxisLaws::same_number))]
fn same_bits(x: f64, y: f64) -> bool
    requires x_value { finite x ≡ true }
    requires y_value { finite y ≡ true }
    ensures { result ≡ true → x ≡ y }
{
    f64::to_bits(x) == f64::to_bits(y)
}

// Whether both numbers have the bits that they had: zeros of either sign are equal, and their bits are not.
pub fn same(before: Along, now: Along) -> bool
    requires { FiniteAlong before × FiniteAlong now }
    ensures { SameNumbers before now result }
{
    same_bits(before.origin, now.origin) && same_bits(before.component, now.component)
}
