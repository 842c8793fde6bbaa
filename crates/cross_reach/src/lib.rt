// Whether the positions of every face of a drawing on one axis may be given, by how far the drawing reaches: two divisions, and no face is
// looked at.
#![tactic(auto)]

ghost use Rattle.std.specs.Prelude.{◌≡◌, true, false, ◌&&◌};
ghost use Rattle.std.specs.Float.Ieee.{neg};
ghost use Rattle.cross_shapes.specs.Shapes.{finite, is_zero};
ghost use Rattle.cross_quick.specs.Given.{given};
ghost use Rattle.cross_reach.specs.Reach.{AllGiven, Plain, Wider};

// The reach with a face more.
#[tactic(auto, using(crate::proofs::WidenLaws::widen_up, crate::proofs::WidenLaws::widen_down, crate::proofs::WidenLaws::widen_not))]
pub fn widen(reach: f64, face: f64) -> f64
    requires { Plain reach }
    ensures { Wider reach face result }
{
    if reach < face {
        return face;
    }
    let other = -face;
    if reach < other {
        return other;
    }
    reach
}

fn either_side(x: f64) -> bool
    ensures { result ≡ (given x && given (neg x)) }
{
    cross_quick::within(x) & cross_quick::within(-x)
}

// The origin may lie on either side of zero, and so may the face.
#[tactic(auto, using(crate::proofs::ReachLaws::sides_given))]
fn all_given(reach: f64, origin: f64, component: f64) -> bool
    requires reach_value { finite reach ≡ true }
    requires origin_value { finite origin ≡ true }
    requires component_value { finite component ≡ true }
    requires component_value_2 { is_zero component ≡ false }
    ensures { result ≡ true → AllGiven reach origin component }
{
    let less = cross_positions::distance_to(reach, origin, component);
    let more = cross_positions::distance_to(reach, -origin, component);
    either_side(less) & either_side(more)
}

// Whether no face that the reach covers has a position that may not be given. A no says nothing.
pub fn judge_axis(reach: f64, origin: f64, component: f64) -> bool
    requires origin_value { finite origin ≡ true }
    requires component_value { finite component ≡ true }
    ensures { result ≡ true → AllGiven reach origin component }
{
    cross_shapes::is_zero(component)
        || (cross_shapes::is_finite(reach) && all_given(reach, origin, component))
}
