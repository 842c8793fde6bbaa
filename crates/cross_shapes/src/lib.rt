// What a probe line meets of a half-space or a box.
#![tactic(auto)]

ghost use Rattle.std.specs.Prelude.{◌≡◌, Some};
ghost use Rattle.cross_cuts.specs.Keys.{cut_of};
ghost use Rattle.cross_shapes.specs.Shapes.{finite, is_zero, axis_range, meet, box_range, crossed_twice, good_pair, box_cut, on as number_on, half_space_cut, shape_cut};
ghost use Rattle.cross_shapes.specs.Spans.{span_of};

use cross_cuts::Met;

// A probe line: its origin and its direction, in millimetres.
#[derive(Clone, Copy, Drop)]
pub struct Probe {
    pub ox: f64,
    pub oy: f64,
    pub oz: f64,
    pub dx: f64,
    pub dy: f64,
    pub dz: f64,
}

// A box: its lows and its highs.
#[derive(Clone, Copy, Drop)]
pub struct Block {
    pub lx: f64,
    pub ly: f64,
    pub lz: f64,
    pub hx: f64,
    pub hy: f64,
    pub hz: f64,
}

// A half-space is an axis and a face.
// Kept: the axis is a byte, as C lends it, and the definition `half_space_cut` says which of them are at fault.
#[derive(Clone, Copy, Drop)]
pub enum Shape {
    HalfSpace(u8, f64),
    Block(Block),
}

// What a line has of a box on some of the axes, positions by their ranks.
#[derive(Clone, Copy, Drop)]
enum Span {
    Missed,
    Free,
    Between(u32, u32),
}

// Kept: `is_finite` and `is_zero` have names of their own, since their contracts say what the definitions call so.
#[tactic(auto, using(crate::proofs::FloatLaws::finite_is))]
pub fn is_finite(x: f64) -> bool
    ensures { result ≡ finite x }
{
    x.is_finite()
}

#[tactic(auto, using(crate::proofs::FloatLaws::zero_is), unfolding(crate::specs::Shapes::is_zero))]
pub fn is_zero(x: f64) -> bool
    ensures { result ≡ is_zero x }
{
    x == 0.0
}

// What the line has of one axis: none where a position may not be given.
#[tactic(auto, using(crate::proofs::BoxLaws::lesser_rank, crate::proofs::BoxLaws::greater_rank), unfolding(crate::specs::Shapes::axis_range))]
fn axis_span(low: f64, high: f64, origin: f64, component: f64) -> Option<Span>
    ensures { span_of result ≡ axis_range low high origin component }
{
    if is_zero(component) {
        if low < origin && origin < high {
            return Some(Span::Free);
        }
        return Some(Span::Missed);
    }
    let a = cross_positions::position(low, origin, component)?;
    let b = cross_positions::position(high, origin, component)?;
    Some(Span::Between(a.min(b), a.max(b)))
}

// Two spans together.
#[tactic(auto, using(crate::proofs::BoxLaws::lesser_rank, crate::proofs::BoxLaws::greater_rank))]
fn meet_both(s: Span, t: Span) -> Span
    ensures { span_of (Some result) ≡ meet (span_of (Some s)) (span_of (Some t)) }
{
    match (s, t) {
        (Span::Free, t) => t,
        (s, Span::Free) => s,
        (Span::Between(a, b), Span::Between(c, d)) => Span::Between(a.max(c), b.min(d)),
        _ => Span::Missed,
    }
}

// A box that is missed on one axis is judged on the others too.
#[tactic(auto, unfolding(crate::specs::Shapes::box_range))]
#[inline(always)]
fn box_span(probe: Probe, b: Block) -> Option<Span>
    ensures { span_of result ≡ box_range probe b.lx b.ly b.lz b.hx b.hy b.hz }
{
    let x = axis_span(b.lx, b.hx, probe.ox, probe.dx)?;
    let y = axis_span(b.ly, b.hy, probe.oy, probe.dy)?;
    let z = axis_span(b.lz, b.hz, probe.oz, probe.dz)?;
    Some(meet_both(meet_both(x, y), z))
}

#[tactic(auto, unfolding(crate::specs::Shapes::good_pair))]
pub fn good_pair(low: f64, high: f64) -> bool
    ensures { result ≡ good_pair low high }
{
    is_finite(low) && is_finite(high) && low < high
}

#[inline(always)]
fn span_met(s: Span) -> Met
    ensures { cut_of (Some result) ≡ crossed_twice (span_of (Some s)) }
{
    match s {
        Span::Between(a, b) if a < b => Met::Twice(a, b),
        _ => Met::Never(false),
    }
}

#[tactic(auto, unfolding(crate::specs::Shapes::box_cut))]
#[inline(always)]
fn meet_box(probe: Probe, b: Block) -> Option<Met>
    ensures { cut_of result ≡ box_cut probe b.lx b.ly b.lz b.hx b.hy b.hz }
{
    if good_pair(b.lx, b.hx) && good_pair(b.ly, b.hy) && good_pair(b.lz, b.hz) {
        return Some(span_met(box_span(probe, b)?));
    }
    None
}

// One of three numbers, by the axis.
#[inline(always)]
fn on(axis: u8, x: f64, y: f64, z: f64) -> f64
    ensures { result ≡ number_on axis x y z }
{
    match axis {
        0 => x,
        1 => y,
        _ => z,
    }
}

#[tactic(auto, unfolding(crate::specs::Shapes::half_space_cut))]
#[inline(always)]
fn meet_half_space(probe: Probe, axis: u8, face: f64) -> Option<Met>
    ensures { cut_of result ≡ half_space_cut probe axis face }
{
    if 2 < axis || !is_finite(face) {
        return None;
    }
    let origin = on(axis, probe.ox, probe.oy, probe.oz);
    let component = on(axis, probe.dx, probe.dy, probe.dz);
    if is_zero(component) {
        return Some(Met::Never(origin < face));
    }
    let inside = 0.0 < component;
    Some(Met::Once(inside, cross_positions::position(face, origin, component)?))
}

// What the line meets of a shape: none where the shape is at fault. Two loops over shapes call it, and each takes it in with what it calls.
#[inline(always)]
pub fn meet_shape(probe: Probe, shape: Shape) -> Option<Met>
    ensures { cut_of result ≡ shape_cut probe shape }
{
    match shape {
        Shape::HalfSpace(axis, face) => meet_half_space(probe, axis, face),
        Shape::Block(b) => meet_box(probe, b),
    }
}
