// Events become walls: one function, handed a finished wall, puts it into five lists.
ghost use Rattle.std.specs.Prelude.{◌+◌};
ghost use Rattle.line_writing.specs.Finishing.{held_by};
ghost use Rattle.line_writing.specs.Lists.{lists_in, SameLists};
ghost use Rattle.line_writing.specs.Writing.{open_count, HasRoom, Finishes, Switched, Delivering, Delivered};

use crate::lists::WallLists;
use crate::spots::{Bound, Spot, bound_at};
use line_lists::{COLUMNS, Crossings, EVENTS};

#[derive(Drop)]
struct Finished {
    line: u32,
    from: Spot,
    to: Spot,
}

// Where the open wall began, if there is metal, and the number of walls put.
#[derive(Clone, Copy, Drop)]
pub struct Course {
    pub from: Option<Spot>,
    pub count: usize,
}

// A finished wall becomes entry k, and how many there are then. Nothing else touches the answer lists.
fn finish(w: Finished, k: usize, walls: &mut WallLists<'_>) -> usize
    requires { HasRoom (k + 1) (lists_in walls.old) }
    ensures put { Finishes w k (lists_in walls.old) (lists_in walls.new) result }
    ensures same { SameLists walls.old walls.new }
{
    let from = w.from;
    let to = w.to;
    walls.lines[k] = w.line;
    walls.starts[k] = from.at;
    walls.ends[k] = to.at;
    walls.start_shapes[k] = from.shape;
    walls.end_shapes[k] = to.shape;
    k + 1
}

// A wall begins at a bound, or the open one ends there.
fn switch(b: Bound, r: Course, walls: &mut WallLists<'_>) -> Course
    requires { HasRoom (r.count + open_count r) (lists_in walls.old) }
    ensures put { Switched b r (lists_in walls.old) result (lists_in walls.new) }
    ensures same { SameLists walls.old walls.new }
{
    match r.from {
        Some(from) => {
            let w = Finished {
                line: b.line,
                from,
                to: b.here,
            };
            let count = finish(w, r.count, walls);
            Course { from: None, count }
        }
        None => Course {
            from: Some(b.here),
            count: r.count,
        },
    }
}

// The walls that a block's events finish.
pub fn deliver(
    events: &[u16; EVENTS],
    m: usize,
    x: Crossings<'_>,
    a: usize,
    cols: &[usize; COLUMNS],
    run: Course,
    walls: &mut WallLists<'_>,
) -> Course
    requires { Delivering (held_by x a cols.now) events.now m run (lists_in walls.old) }
    ensures put { Delivered (held_by x.entry a cols.now) events.now m run (lists_in walls.old) result (lists_in walls.new) }
    ensures same { SameLists walls.old walls.new }
{
    let mut r = run;
    for k in 0..m {
        let b = bound_at(events, k, x, a, cols);
        r = switch(b, r, walls);
    }
    r
}
