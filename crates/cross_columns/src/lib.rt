// A drawing in columns: each shape is read and matched once, and its faces are put by axis, each axis a part of 256.
#![tactic(auto)]

ghost use Rattle.std.specs.Prelude.{◌≡◌, ◌+◌, ◌<◌, ◌≤◌, length, set};
ghost use Rattle.cross_columns.specs.Columns.{Column, Columns as Filled};

use cross_line::Drawing;
use cross_shapes::{Block, Shape};

// An axis is a part of the faces, with room for the shapes of a drawing.
pub const PART: usize = cross_cuts::SHAPES;

pub const FACES: usize = 3 * PART;

// The shapes' faces, x, then y, then z; and of each shape 0 for a box, or the axis of a half-space, 1 more.
#[derive(Drop)]
pub struct Columns {
    pub lows: [f64; FACES],
    pub highs: [f64; FACES],
    pub halves: [u32; PART],
}

// A shape's faces by axis, and 0 for a box, or the axis of a half-space, 1 more.
#[derive(Drop)]
struct Entry {
    faces: Block,
    half: u32,
}

fn entry_of(shape: Shape) -> Entry
    ensures { Column shape result.faces result.half }
{
    match shape {
        Shape::HalfSpace(axis, face) => Entry {
            faces: Block {
                lx: face,
                ly: face,
                lz: face,
                hx: face,
                hy: face,
                hz: face,
            },
            half: u32::from(axis) + 1,
        },
        Shape::Block(faces) => Entry { faces, half: 0 },
    }
}

// One number of each axis.
fn put(x: f64, y: f64, z: f64, i: usize, faces: &mut [f64; FACES])
    requires { i < 256 }
    ensures { faces.new ≡ set (set (set faces.old i x) (256 + i) y) (512 + i) z }
{
    faces[i] = x;
    faces[PART + i] = y;
    faces[2 * PART + i] = z;
}

// Fills the columns.
pub fn fill_columns(drawing: Drawing<'_>, columns: &mut Columns)
    requires { length drawing.kinds.now ≤ 256 }
    ensures { Filled drawing.entry.kinds.now drawing.entry.numbers.now (length drawing.entry.kinds.now) columns.new.lows columns.new.highs columns.new.halves }
{
    for i in 0..drawing.kinds.len() {
        let entry = entry_of(cross_line::shape_at(drawing, i));
        let faces = entry.faces;
        put(faces.lx, faces.ly, faces.lz, i, &mut columns.lows);
        put(faces.hx, faces.hy, faces.hz, i, &mut columns.highs);
        columns.halves[i] = entry.half;
    }
}
