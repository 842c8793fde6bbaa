// A call's crossings, and the sizes of a block's arrays: what the passes share.
#![tactic(auto)]

// The words of a row.
pub const W: usize = 8;

// The columns of a row. As a number, a column is a crossing, counted from the block's first one, or COLUMNS + l for the start of line l.
pub const COLUMNS: usize = 64 * W;

// Metal changes at a column, or goes on past it: at most two events a column.
pub const EVENTS: usize = 2 * COLUMNS;

// A block: its first crossing, its number of columns, whether they are crossings alone, whether the first is on the line of the last one before it, and whether there is metal there.
#[derive(Clone, Copy, Drop)]
pub struct Part {
    pub first: usize,
    pub size: usize,
    pub alone: bool,
    pub onward: bool,
    pub metal: bool,
}

// A call's crossings: lines, positions and shapes at an index. Those of a call that was judged are sorted by line and then by position.
#[derive(Clone, Copy, Drop)]
pub struct Crossings<'a> {
    pub line: &'a [u32],
    pub at: &'a [i32],
    pub shape: &'a [u16],
}
