// The shape at a position of a line: the lowest that the crossings there change.
ghost use Rattle.std.specs.Prelude.{◌≡◌, cond, min, ◌<◌, length};
ghost use Rattle.line_writing.specs.Groups.{state_of, GroupStart, FirstThere, Tallied, FewShapes, Least, GroupEnd, GroupShape};

use line_lists::Crossings;

// Where no shape is: the number that a list of walls has there.
// Kept: no Option, since 65535 stands in the lists that C lends (C interface).
pub const NO_SHAPE: u16 = u16::MAX;

// A byte a shape.
const SHAPES: usize = 256;

// The first of the crossings that act together with the one at i.
fn group_start(x: Crossings<'_>, i: usize) -> usize
    requires { (i < length x.line.now) × (length x.at.now ≡ length x.line.now) }
    ensures { GroupStart x.entry.line.now x.entry.at.now i result }
{
    for h in (0..i).rev() {
        if x.line[h] != x.line[i] || x.at[h] < x.at[i] {
            return h + 1;
        }
    }
    0
}

// Which shapes are crossed an odd number of times.
fn tally(shapes: &[u16], odd: &mut [bool; SHAPES])
    requires { FewShapes shapes.now }
    ensures { Tallied shapes.now (length shapes.now) odd.old odd.new }
{
    for &s in shapes {
        let k = usize::from(s);
        odd[k] = !odd[k];
    }
}

// The lesser of r and s, if s is on.
fn lesser(odd: &[bool; SHAPES], s: u16, r: u16) -> u16
    requires { s < 256 }
    ensures { result ≡ cond (state_of odd.now s) (min r s) r }
{
    if odd[usize::from(s)] { r.min(s) } else { r }
}

// The least of some shapes that is on. Each of them is looked at once, so that many crossings at one position cost no more than their number.
fn least(shapes: &[u16], odd: &[bool; SHAPES]) -> u16
    requires { FewShapes shapes.now }
    ensures { Least shapes.now (length shapes.now) (state_of odd.now) result }
{
    let mut r = NO_SHAPE;
    for &s in shapes {
        r = lesser(odd, s, r);
    }
    r
}

// Whether the crossing at i stands first at its position, as most do, so that no other has to be looked at.
fn stands_first(x: Crossings<'_>, i: usize) -> bool
    requires { (i < length x.line.now) × (length x.at.now ≡ length x.line.now) }
    ensures { FirstThere x.entry.line.now x.entry.at.now i result }
{
    i == 0 || x.line[i - 1] != x.line[i] || x.at[i - 1] < x.at[i]
}

// Of the shapes crossed at the position of the crossing at i, the lowest that is flipped.
fn lowest_flipped(x: Crossings<'_>, i: usize) -> u16
    requires { GroupEnd x.line.now x.at.now x.shape.now i }
    ensures { GroupShape x.entry.line.now x.entry.at.now x.entry.shape.now i result }
{
    let g = group_start(x, i);
    let e = i + 1;
    let part = &x.shape[g..e];
    let mut odd = [false; SHAPES];
    tally(part, &mut odd);
    least(part, &odd)
}

// The shape at the position of the crossing at i, which is the last there. Only a position with several crossings needs a byte a shape.
pub fn group_shape(x: Crossings<'_>, i: usize) -> u16
    requires { GroupEnd x.line.now x.at.now x.shape.now i }
    ensures { GroupShape x.entry.line.now x.entry.at.now x.entry.shape.now i result }
{
    if stands_first(x, i) {
        return x.shape[i];
    }
    lowest_flipped(x, i)
}
