// The columns of a block, from a cursor in the lists: a crossing, or the start of a line with a shape inside. See specs/Planned.antt.
#![tactic(auto)]

ghost use Rattle.std.specs.Prelude.{◌≡◌, ◌+◌, ◌<◌, ◌≤◌, length};
ghost use Rattle.lines.specs.Lines.{start_state};
ghost use Rattle.lines.specs.Columns.{any_inside};
ghost use Rattle.line_lists.specs.Block.{planned, SaidNumbered, SaidAlone};
ghost use Rattle.line_columns.specs.Planning.{NextInside, WholeRows, RowThere, Occupied, StartsNext, LastPut, StartReady, StartPut, CrossingReady, CrossingPut, UntilReady, UntilPut, CrossingsReady, CrossingsPut, CanPlan, WordNext, WordPlanned, PlanMade, RunsOn};

use line_lists::{COLUMNS, W};

// Beyond every line.
const NO_LINE: usize = 4294967296;

// The next crossing, the next line with a shape inside at its start, or the number of lines, and the columns of the block so far.
#[derive(Clone, Copy, Drop)]
pub struct Cursor {
    pub i: usize,
    pub q: usize,
    pub c: usize,
}

// A cursor, and the lasts of the 64 columns that it stands in.
#[derive(Drop)]
struct Word {
    next: Cursor,
    lasts: u64,
}

// The cursor after a block, and whether its columns are crossings alone.
#[derive(Drop)]
pub struct Ended {
    pub next: Cursor,
    pub alone: bool,
}

// The start rows of a call's lines, so many, each with a byte for so many names.
#[derive(Clone, Copy, Drop)]
pub struct Starts<'a> {
    pub rows: &'a [u8],
    pub names: usize,
    pub count: usize,
}

// Some byte of a start row is not 0.
#[tactic(auto, using(crate::proofs::RowLaws::greatest_none, crate::proofs::RowLaws::greatest_more, crate::proofs::RowLaws::occupied))]
fn is_inside(row: &[u8]) -> bool
    ensures { Occupied row.now result }
{
    // Kept: any() ends at the first such byte, so it looks at one after another; the greatest is sought in many at once.
    let mut most: u8 = 0;
    for &b in row {
        most = most.max(b);
    }
    most != 0
}

impl Starts<'_> {
    // Some shape is inside at the start of line q.
    #[tactic(auto, using(crate::proofs::RowLaws::row_inside))]
    fn row_inside(self, q: usize) -> bool
        requires { RowThere self.names self.rows.now q }
        ensures { result ≡ any_inside self.entry.names (start_state self.entry.names self.entry.rows.now q) }
    {
        let a = q * self.names;
        is_inside(&self.rows[a..a + self.names])
    }

    // The first line from r on with a shape inside at its start, or the number of lines.
    #[tactic(auto, using(crate::proofs::RowLaws::row_there, crate::proofs::RowLaws::passed_none, crate::proofs::RowLaws::passed_more, crate::proofs::RowLaws::next_found, crate::proofs::RowLaws::next_none))]
    pub fn next_inside(self, r: usize) -> usize
        requires { WholeRows self.names self.rows.now self.count × (r ≤ self.count) }
        ensures { NextInside self.entry.names self.entry.rows.now r result }
    {
        for q in r..self.count {
            if self.row_inside(q) {
                return q;
            }
        }
        self.count
    }
}

// Column c is its line's last, or is not; nothing was said of it before in its word of lasts.
#[tactic(auto, using(crate::proofs::LastLaws::last_put))]
fn put_last(lasts: u64, c: usize, last: bool) -> u64
    ensures { LastPut lasts result c last }
{
    lasts | (u64::from(last) << (c % 64))
}

// The next column is the start of line q.
#[tactic(auto, using(crate::proofs::PutLaws::starts_rows, crate::proofs::PutLaws::starts_end, crate::proofs::PutLaws::starts_line))]
fn is_start(line: &[u32], count: usize, f: Cursor) -> bool
    requires { f.i ≤ length line.now }
    ensures { StartsNext line.now count f.i f.q result }
{
    f.q < count && (f.i == line.len() || f.q <= line[f.i] as usize)
}

// The start of the cursor's line becomes its column; the cursor and the lasts after it.
#[tactic(auto, using(crate::proofs::PutLaws::start_put))]
fn start_column(cols: &mut [usize; COLUMNS], starts: Starts<'_>, line: &[u32], at: Word) -> Word
    requires { StartReady starts.names starts.rows.now line.now starts.count cols.old at }
    ensures { StartPut starts.entry.names starts.entry.rows.now line.now cols.old at cols.new result }
{
    let Cursor { i, q, c } = at.next;
    let last = line_runs::is_over(line, q, i);
    cols[c] = COLUMNS + q;
    Word {
        next: Cursor {
            i,
            q: starts.next_inside(q + 1),
            c: c + 1,
        },
        lasts: put_last(at.lasts, c, last),
    }
}

// The next crossing becomes column c of the block that begins at crossing a; the cursor and the lasts after it.
#[tactic(auto, using(crate::proofs::PutLaws::crossing_put))]
fn crossing_column(cols: &mut [usize; COLUMNS], a: usize, last: bool, at: Word) -> Word
    requires { CrossingReady cols.old a at }
    ensures { CrossingPut cols.old a last at cols.new result }
{
    let Cursor { i, q, c } = at.next;
    cols[c] = i - a;
    Word {
        next: Cursor {
            i: i + 1,
            q,
            c: c + 1,
        },
        lasts: put_last(at.lasts, c, last),
    }
}

// The line of the next start, or a line beyond all.
// Kept: a line that there is not, and no Option, so that the loop below asks one question of each crossing.
fn start_line(count: usize, q: usize) -> usize
    ensures { q < count → result ≤ q }
{
    if q < count { q } else { NO_LINE }
}

// As long as the next crossing is before line `limit`, and another one comes before `stop`, it becomes a column. Most columns are made here, so little is asked of each.
fn cross_until(
    cols: &mut [usize; COLUMNS],
    line: &[u32],
    a: usize,
    limit: usize,
    stop: usize,
    from: Word,
) -> Word
    requires { UntilReady line.now cols.old a stop from }
    ensures { UntilPut line.now a limit stop cols.old from cols.new result }
{
    let mut at = from;
    // Kept: the cursor itself counts here.
    while at.next.i + 1 < stop {
        let i = at.next.i;
        if limit <= line[i] as usize {
            return at;
        }
        let last = line_runs::last_of_line(line, i);
        at = crossing_column(cols, a, last, at);
    }
    at
}

// The next crossing becomes a column, and those after it before the next start, to column `end` at most.
fn crossings(
    cols: &mut [usize; COLUMNS],
    line: &[u32],
    count: usize,
    a: usize,
    end: usize,
    at: Word,
) -> Word
    requires { CrossingsReady line.now cols.old a end at }
    ensures { CrossingsPut line.now count a end cols.old at cols.new result }
{
    let i = at.next.i;
    let stop = i + (line.len() - i).min(end - at.next.c);
    let limit = start_line(count, at.next.q);
    let last = line_runs::is_over(line, line[i] as usize, i + 1);
    let first = crossing_column(cols, a, last, at);
    cross_until(cols, line, a, limit, stop, first)
}

// The next 64 columns of the block that begins at `from`, or all that are left. Their lasts are written once, so that no column waits for the one before it.
fn plan_word(
    cols: &mut [usize; COLUMNS],
    lasts: &mut [u64; W],
    starts: Starts<'_>,
    line: &[u32],
    from: Cursor,
    first: Cursor,
) -> Cursor
    requires { WordNext starts.names starts.rows.now line.now starts.count from.i from.q (planned cols.old lasts.old) first }
    ensures { WordPlanned starts.entry.names starts.entry.rows.now line.now starts.entry.count from.i from.q (planned cols.new lasts.new) first.c result }
{
    let k = first.c / 64;
    let end = first.c + 64;
    let mut at = Word {
        next: first,
        lasts: 0,
    };
    // Kept: the cursor goes on by one column or by many.
    while at.next.c < end {
        if is_start(line, starts.count, at.next) {
            at = start_column(cols, starts, line, at);
            continue;
        }
        if at.next.i == line.len() {
            lasts[k] = at.lasts;
            return at.next;
        }
        at = crossings(cols, line, starts.count, from.i, end, at);
    }
    lasts[k] = at.lasts;
    at.next
}

// The columns of a block one by one, 64 to a word of lasts.
fn plan_each(
    cols: &mut [usize; COLUMNS],
    lasts: &mut [u64; W],
    starts: Starts<'_>,
    line: &[u32],
    from: Cursor,
) -> Cursor
    requires { CanPlan starts.names starts.rows.now line.now starts.count (planned cols.old lasts.old) from.i from.q }
    ensures { PlanMade starts.entry.names starts.entry.rows.now line.now (planned cols.new lasts.new) from.i from.q result.c result.i result.q }
{
    let mut f = Cursor { c: 0, ..from };
    for k in 0..W {
        f = plan_word(cols, lasts, starts, line, from, f);
        if f.c < 64 * (k + 1) {
            return f;
        }
    }
    f
}

// How many crossings the next block may have with no line's start among them: as many as there is room for or as there are; 0 where a start stands among those.
fn run_length(line: &[u32], count: usize, f: Cursor) -> usize
    requires { f.i ≤ length line.now }
    ensures { RunsOn line.now count f.i f.q result }
{
    let n = (line.len() - f.i).min(COLUMNS);
    if n == 0 {
        return 0;
    }
    if count <= f.q || (line[f.i + n - 1] as usize) < f.q {
        n
    } else {
        0
    }
}

// The columns of the block that begins at a cursor, and how it ends. Crossings alone are put many at a time; `numbered` says that the columns are numbered already.
pub fn plan(
    cols: &mut [usize; COLUMNS],
    lasts: &mut [u64; W],
    starts: Starts<'_>,
    line: &[u32],
    from: Cursor,
    numbered: bool,
) -> Ended
    requires { CanPlan starts.names starts.rows.now line.now starts.count (planned cols.old lasts.old) from.i from.q × SaidNumbered cols.old numbered }
    ensures { PlanMade starts.entry.names starts.entry.rows.now line.now (planned cols.new lasts.new) from.i from.q result.next.c result.next.i result.next.q × SaidAlone line.now cols.new from.i result.next.c result.alone × SaidNumbered cols.new result.alone }
{
    let n = run_length(line, starts.count, from);
    if n == 0 {
        let next = plan_each(cols, lasts, starts, line, from);
        return Ended { next, alone: false };
    }
    line_runs::number_once(cols, numbered);
    line_runs::note_ends(lasts, line, from.i, n);
    let m = line_runs::cut(lasts, n);
    Ended {
        next: Cursor {
            i: from.i + m,
            c: m,
            ..from
        },
        alone: true,
    }
}
