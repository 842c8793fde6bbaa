// Where a block's events stand: the edge at an event, and its line. What is done with a wall that begins or ends there is the caller's.
ghost use Rattle.std.specs.Prelude.{◌≡◌, [], ◌*◌, ◌<◌, length, get_or};
ghost use Rattle.line_lists.specs.Block.{columns};
ghost use Rattle.line_writing.specs.Groups.{GroupEnd};
ghost use Rattle.line_writing.specs.Finishing.{held, held_by, column_line};
ghost use Rattle.line_writing.specs.Spots.{ColumnHeld, ChangeHeld, EventHeld, CrossingSpot, CrossingBound, ColumnBound, EventListed, EventBound};

use crate::shapes::{NO_SHAPE, group_shape};
use line_lists::{COLUMNS, Crossings, EVENTS};

// Where a wall begins or ends, and the shape there.
#[derive(Clone, Copy, Drop)]
pub struct Spot {
    pub at: i32,
    pub shape: u16,
}

// What bounds a wall: an edge, and its line.
#[derive(Drop)]
pub struct Bound {
    pub line: u32,
    pub here: Spot,
}

fn crossing_spot(x: Crossings<'_>, i: usize) -> Spot
    requires { GroupEnd x.line.now x.at.now x.shape.now i }
    ensures { CrossingSpot x.entry.line.now x.entry.at.now x.entry.shape.now i result }
{
    Spot {
        at: x.at[i],
        shape: group_shape(x, i),
    }
}

// What the crossing at i bounds, the last at its position.
fn crossing_bound(x: Crossings<'_>, i: usize) -> Bound
    requires { GroupEnd x.line.now x.at.now x.shape.now i }
    ensures { CrossingBound x.entry.line.now x.entry.at.now x.entry.shape.now i result }
{
    Bound {
        line: x.line[i],
        here: crossing_spot(x, i),
    }
}

// What column j bounds, in the block whose first crossing is a.
// Kept: a column is one number, a crossing or COLUMNS and a line, and an event a column or COLUMNS and a column: no enum, since a block's arrays are of fixed size and read one load a column.
fn column_bound(x: Crossings<'_>, a: usize, cols: &[usize; COLUMNS], j: usize) -> Bound
    requires { ChangeHeld (held_by x a cols.now) j }
    ensures { ColumnBound (held_by x.entry a cols.now) j result }
{
    let o = cols[j];
    if COLUMNS <= o {
        return Bound {
            line: (o - COLUMNS) as u32,
            here: Spot {
                at: i32::MIN,
                shape: NO_SHAPE,
            },
        };
    }
    crossing_bound(x, a + o)
}

fn column_line(line: &[u32], a: usize, cols: &[usize; COLUMNS], j: usize) -> u32
    requires { ColumnHeld (held line.now [] [] a cols.now) j }
    ensures { result ≡ column_line (held line.now [] [] a cols.now) j }
{
    let o = cols[j];
    if COLUMNS <= o {
        return (o - COLUMNS) as u32;
    }
    line[a + o]
}

// What event e bounds: metal changes at its column, or goes on past its line's end.
fn event_bound(x: Crossings<'_>, a: usize, cols: &[usize; COLUMNS], e: usize) -> Bound
    requires { EventHeld (held_by x a cols.now) e }
    ensures { EventBound (held_by x.entry a cols.now) e result }
{
    if e < COLUMNS {
        return column_bound(x, a, cols, e);
    }
    Bound {
        line: column_line(x.line, a, cols, e - COLUMNS),
        here: Spot {
            at: i32::MAX,
            shape: NO_SHAPE,
        },
    }
}

// What event k of those listed bounds.
pub fn bound_at(
    events: &[u16; EVENTS],
    k: usize,
    x: Crossings<'_>,
    a: usize,
    cols: &[usize; COLUMNS],
) -> Bound
    requires { EventListed (held_by x a cols.now) events.now k }
    ensures { EventBound (held_by x.entry a cols.now) (get_or events.now k 0) result }
{
    event_bound(x, a, cols, usize::from(events[k]))
}
