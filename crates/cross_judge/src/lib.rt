// A line judged by how far the drawing reaches, before its crossings are made: at most six divisions, however many shapes.
#![tactic(auto)]

ghost use Rattle.std.specs.Prelude.{◌≡◌, true, ◌≤◌, length};
ghost use Rattle.cross_reach.specs.Reach.{Plain};
ghost use Rattle.cross_shapes.specs.declared.Shape.TheVariants.{HalfSpace, Block as Box};
ghost use Rattle.cross_judge.specs.Covering.{Covers, NoFault};
ghost use Rattle.cross_judge.specs.Growing.{PlainAll, Spans, Grown};

use cross_line::Drawing;
use cross_shapes::{Block, Probe, Shape};

// What is read of a drawing once: whether each of its shapes is sound, and how far from zero its faces reach on each axis.
#[derive(Clone, Copy, Drop)]
pub struct Reach {
    pub good: bool,
    pub x: f64,
    pub y: f64,
    pub z: f64,
}

// The reach on one axis with two faces more.
#[tactic(auto, using(crate::proofs::GrowLaws::two_faces))]
fn span(reach: f64, low: f64, high: f64) -> f64
    requires { Plain reach }
    ensures { Spans reach low high result }
{
    cross_reach::widen(cross_reach::widen(reach, low), high)
}

impl Reach {
    fn with_half_space(self, axis: u8, face: f64) -> Reach
        requires { PlainAll self }
        ensures { Grown self (HalfSpace axis face) result }
    {
        let good = self.good & ((axis < 3) & cross_shapes::is_finite(face));
        match axis {
            0 => Reach {
                good,
                x: cross_reach::widen(self.x, face),
                ..self
            },
            1 => Reach {
                good,
                y: cross_reach::widen(self.y, face),
                ..self
            },
            2 => Reach {
                good,
                z: cross_reach::widen(self.z, face),
                ..self
            },
            _ => Reach { good, ..self },
        }
    }

    #[tactic(auto, using(crate::proofs::GrowLaws::box_grown))]
    fn with_box(self, b: Block) -> Reach
        requires { PlainAll self }
        ensures { Grown self (Box b) result }
    {
        let x = cross_shapes::good_pair(b.lx, b.hx);
        let y = cross_shapes::good_pair(b.ly, b.hy);
        let z = cross_shapes::good_pair(b.lz, b.hz);
        Reach {
            good: self.good & (x & (y & z)),
            x: span(self.x, b.lx, b.hx),
            y: span(self.y, b.ly, b.hy),
            z: span(self.z, b.lz, b.hz),
        }
    }

    // The reach with a shape more.
    fn with(self, shape: Shape) -> Reach
        requires { PlainAll self }
        ensures { Grown self shape result }
    {
        match shape {
            Shape::HalfSpace(axis, face) => self.with_half_space(axis, face),
            Shape::Block(b) => self.with_box(b),
        }
    }
}

pub fn reach_of(drawing: Drawing<'_>) -> Reach
    requires { length drawing.kinds.now ≤ 256 }
    ensures { Covers drawing.entry.kinds.now drawing.entry.numbers.now (length drawing.entry.kinds.now) result }
{
    let mut reach = Reach {
        good: true,
        x: 0.0,
        y: 0.0,
        z: 0.0,
    };
    for i in 0..drawing.kinds.len() {
        reach = reach.with(cross_line::shape_at(drawing, i));
    }
    reach
}

// Whether neither the line nor a shape of the drawing is at fault. A no says nothing.
pub fn judge(probe: Probe, reach: Reach) -> bool
    ensures { result ≡ true → NoFault probe reach }
{
    if cross_line::good_probe(probe) {
        let x = cross_reach::judge_axis(reach.x, probe.ox, probe.dx);
        let y = cross_reach::judge_axis(reach.y, probe.oy, probe.dy);
        let z = cross_reach::judge_axis(reach.z, probe.oz, probe.dz);
        return reach.good & (x & (y & z));
    }
    false
}
