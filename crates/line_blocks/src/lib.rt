// The pass over a call's columns, block by block: a block's columns, its row of metal, its events, and the walls that they finish, put into five lists. Whose lists they are is the caller's.
#![tactic(auto)]

ghost use Rattle.std.specs.Prelude.{◌≡◌, not, ◌&&◌, ◌||◌, eqb, ltb, ◌-◌};
ghost use Rattle.lines.specs.Lines.{row_count};
ghost use Rattle.line_lists.specs.Block.{columns, cell};
ghost use Rattle.line_strips.specs.Filling.{Fillable};
ghost use Rattle.line_words.specs.Evaluating.{Evaluable};
ghost use Rattle.line_columns.specs.Planning.{WholeRows, NextInside};
ghost use Rattle.line_writing.specs.Lists.{lists_in, SameLists};
ghost use Rattle.line_blocks.specs.Blocks.{call_lists, RowMade, Sized, SaidOf, Begun, FewCodes, CallMade};
ghost use Rattle.line_blocks.specs.Walls.{StepAsk, StepDone, NothingDone};

use line_lists::{COLUMNS, Crossings, EVENTS, Part, W};
use line_writing::lists::WallLists;
use line_writing::writing::{Course, deliver};

const LAST: usize = W - 1;

// What a call is of: its formula, arranged, its names, the number of its rows, and whether they are said to be all outside.
#[derive(Clone, Copy, Drop)]
pub struct Call {
    pub arranged: line_words::Arranged,
    pub names: usize,
    pub count: usize,
    pub air: bool,
}

// How far the pass has come: the cursor of the next block, whether its first column is on the line of the last one before it, and whether the columns stand numbered, as a block of crossings alone leaves them.
#[derive(Clone, Copy, Drop)]
pub struct Pass {
    pub cursor: line_columns::Cursor,
    pub onward: bool,
    pub numbered: bool,
}

// How far the pass has come, and the walls.
#[derive(Clone, Copy, Drop)]
pub struct Progress {
    pub pass: Pass,
    pub run: Course,
}

// The arrays of a block: its columns, which of them are their lines' last, and its events.
#[derive(Drop)]
pub struct Desk {
    pub cols: [usize; COLUMNS],
    pub lasts: [u64; W],
    pub events: [u16; EVENTS],
}

// The formula's row of a block.
fn block_row(
    table: &[u32],
    call: Call,
    words: &mut [u64],
    rows: &[u8],
    shape: &[u16],
    cols: &[usize; COLUMNS],
    lasts: &[u64; W],
    b: Part,
) -> [u64; W]
    requires { Evaluable table.now words.old call.arranged × Fillable call.names rows.now shape.now cols.now lasts.now b.first b.size b.alone words.old }
    ensures { RowMade table.now call.arranged call.names rows.now shape.now cols.now lasts.now b.first b.size b.onward words.old words.new result }
{
    line_strips::fill(words, call.names, rows, shape, cols, lasts, b);
    line_words::evaluate(table, call.arranged, words)
}

// The line of the last of n columns goes on: only where the block is full.
fn goes_past(lasts: &[u64; W], n: usize) -> bool
    ensures { result ≡ (eqb n columns && not (cell lasts.now (columns - 1))) }
{
    n == COLUMNS && !word_bits::is_on(lasts[LAST], 63)
}

// The first line with a shape inside at its start. Where every line starts in air the rows are not looked at.
fn first_start(rows: &[u8], names: usize, count: usize, air: bool) -> usize
    requires { WholeRows names rows.now count × SaidOf air rows.now }
    ensures { NextInside names rows.now 0 result }
{
    if air {
        count
    } else {
        line_columns::Starts { rows, names, count }.next_inside(0)
    }
}

fn first_pass(rows: &[u8], names: usize, count: usize, air: bool) -> Pass
    requires { WholeRows names rows.now count × SaidOf air rows.now }
    ensures { Begun names rows.now result }
{
    let q = first_start(rows, names, count, air);
    Pass {
        cursor: line_columns::Cursor { i: 0, q, c: 0 },
        onward: false,
        numbered: false,
    }
}

// The next block of the pass, and its walls.
pub fn step(
    table: &[u32],
    call: Call,
    words: &mut [u64],
    rows: &[u8],
    x: Crossings<'_>,
    desk: &mut Desk,
    p: Progress,
    walls: &mut WallLists<'_>,
) -> Progress
    requires { StepAsk table.now call.arranged call.names (call_lists rows.now x) words.old p (lists_in walls.old) × Sized desk.old.cols desk.old.lasts desk.old.events p.pass.numbered × (call.count ≡ row_count call.names rows.now) }
    ensures step { StepDone table.now call.arranged call.names (call_lists rows.now x.entry) words.old p (lists_in walls.old) words.new desk.new.cols desk.new.lasts desk.new.events result (lists_in walls.new) }
    ensures same { SameLists walls.old walls.new }
{
    let pass = p.pass;
    let from = pass.cursor;
    let starts = line_columns::Starts {
        rows,
        names: call.names,
        count: call.count,
    };
    let ended = line_columns::plan(
        &mut desk.cols,
        &mut desk.lasts,
        starts,
        x.line,
        from,
        pass.numbered,
    );
    let next = ended.next;
    let b = Part {
        first: from.i,
        size: next.c,
        alone: ended.alone,
        onward: pass.onward,
        metal: p.run.from.is_some(),
    };
    let row = block_row(
        table,
        call,
        words,
        rows,
        x.shape,
        &desk.cols,
        &desk.lasts,
        b,
    );
    let m = line_sweeping::sweep(x, &desk.cols, &row, &desk.lasts, b, &mut desk.events);
    let run = deliver(&desk.events, m, x, from.i, &desk.cols, p.run, walls);
    Progress {
        pass: Pass {
            cursor: next,
            onward: goes_past(&desk.lasts, next.c),
            numbered: ended.alone,
        },
        run,
    }
}

// The call of a formula by its codes, which are arranged in the table.
pub fn call_of(
    codes: &[u16],
    names: usize,
    air: bool,
    rows: &[u8],
    table: &mut [u32; line_words::TABLE],
) -> Call
    requires { FewCodes codes.now names }
    ensures { CallMade codes.now names air rows.now table.new result }
{
    Call {
        arranged: line_words::arrange(codes, table),
        names,
        count: rows.len() / names,
        air,
    }
}

pub fn begin(rows: &[u8], call: Call) -> Progress
    requires { WholeRows call.names rows.now call.count × SaidOf call.air rows.now }
    ensures { NothingDone call.names rows.now result }
{
    Progress {
        pass: first_pass(rows, call.names, call.count, call.air),
        run: Course {
            from: None,
            count: 0,
        },
    }
}

// A crossing is left, or the start of a line.
pub fn is_left(p: Progress, crossings: usize, count: usize) -> bool
    ensures { result ≡ (ltb p.pass.cursor.i crossings || ltb p.pass.cursor.q count) }
{
    let f = p.pass.cursor;
    f.i < crossings || f.q < count
}
