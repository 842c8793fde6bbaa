// A block's row gone through from one event to the next, or a word at a time where each column stands alone. See line_events/specs/Events.antt.
#![tactic(auto)]

ghost use Rattle.std.specs.Prelude.{◌≡◌, not, ℕ, ◌+◌, ◌*◌, ◌<◌, length};
ghost use Rattle.std.specs.Bool.{beq};
ghost use Rattle.lines.specs.AtIndex.{group_ends_at};
ghost use Rattle.word_bits.specs.Words.{bit};
ghost use Rattle.line_lists.specs.Block.{cell, SaidAlone};
ghost use Rattle.line_events.specs.Events.{ends_in};
ghost use Rattle.line_events.specs.Noted.{NoteRoom, WordPart, Listed};
ghost use Rattle.line_sweeping.specs.Sweeping.{NextNoisy, ColumnThere, EventNoted, EventRoom, Reached, Changed, Left, Stepped, Sweepable, Swept};

use line_events::Found;
use line_lists::{COLUMNS, Crossings, EVENTS, Part, W};

// A block as it is laid out: of its call's crossings the lines and positions, its columns, the formula's row and the lines' ends, and what it is of.
#[derive(Clone, Copy, Drop)]
struct Block<'a> {
    line: &'a [u32],
    at: &'a [i32],
    cols: &'a [usize; COLUMNS],
    row: &'a [u64; W],
    lasts: &'a [u64; W],
    part: Part,
}

#[tactic(auto, using(crate::proofs::EndLaws::ends_list, crate::proofs::EndLaws::ends_line, crate::proofs::EndLaws::ends_place))]
fn group_ends(line: &[u32], at: &[i32], i: usize) -> bool
    requires { (i < length line.now) × (length at.now ≡ length line.now) }
    ensures { result ≡ group_ends_at line.now at.now i }
{
    i + 1 == line.len() || (line[i + 1] != line[i] || at[i] < at[i + 1])
}

#[tactic(auto, using(crate::proofs::EndLaws::ends_start, crate::proofs::EndLaws::ends_crossing, crate::proofs::EndLaws::there_crossing, crate::proofs::EndLaws::there_long))]
fn column_ends(b: Block<'_>, c: usize) -> bool
    requires { ColumnThere b.line.now b.at.now b.part.first b.cols.now c }
    ensures { result ≡ ends_in b.entry.line.now b.entry.at.now b.entry.part.first b.entry.cols.now c }
{
    let o = b.cols[c];
    COLUMNS <= o || group_ends(b.line, b.at, b.part.first + o)
}

// v is one event more, after which there is `metal`.
#[tactic(auto, using(crate::proofs::EventLaws::noted_one))]
fn note(events: &mut [u16; EVENTS], v: usize, metal: bool, count: u16) -> Found
    requires { NoteRoom v count events.old }
    ensures { EventNoted v metal count events.old events.new result }
{
    events[usize::from(count)] = v as u16;
    Found {
        metal,
        count: count + 1,
    }
}

// Metal changes at column c, if its bit says something else than before and all that stands at its position has acted.
fn change(b: Block<'_>, c: usize, metal: bool, events: &mut [u16; EVENTS], f: Found) -> Found
    requires { ColumnThere b.line.now b.at.now b.part.first b.cols.now c × EventRoom c events.old f }
    ensures { Changed (ends_in b.entry.line.now b.entry.at.now b.entry.part.first b.entry.cols.now c) metal c events.old f events.new result }
{
    if metal != f.metal && column_ends(b, c) {
        return note(events, c, metal, f.count);
    }
    f
}

// Metal goes on past column c, if there is some and c is the last column of its line. Nothing runs on into another line.
fn leave(c: usize, last: bool, events: &mut [u16; EVENTS], f: Found) -> Found
    requires { EventRoom c events.old f }
    ensures { Left last c events.old f events.new result }
{
    if last && f.metal {
        return note(events, COLUMNS + c, false, f.count);
    }
    f
}

// The bits that differ from what there is before them.
fn differing(w: u64, metal: bool) -> u64
    ensures { (b : ℕ) → b < 64 → bit result b ≡ not (beq metal (bit w b)) }
{
    if metal { w ^ u64::MAX } else { w }
}

// The next bit from j on that may be an event, or none of the 64: it differs from what there is before it, or is on at a line's end.
fn next_noisy(w: u64, y: u64, j: usize, metal: bool) -> usize
    requires { j < 64 }
    ensures { NextNoisy w y j metal result }
{
    let d = differing(w, metal) | w & y;
    (d >> j).trailing_zeros() as usize + j
}

// Column c, whose bit is `metal`, and which is its line's last or is not.
#[tactic(auto, using(crate::proofs::EventLaws::reached_room, crate::proofs::EventLaws::changed_room, crate::proofs::EventLaws::stepped_both))]
fn step(
    b: Block<'_>,
    c: usize,
    metal: bool,
    last: bool,
    events: &mut [u16; EVENTS],
    f: Found,
) -> Found
    requires { Reached b.line.now b.at.now b.part.first b.cols.now c events.old f }
    ensures { Stepped (ends_in b.entry.line.now b.entry.at.now b.entry.part.first b.entry.cols.now c) metal last c events.old f events.new result }
{
    let g = change(b, c, metal, events, f);
    leave(c, last, events, g)
}

// The columns of word k before e.
fn sweep_word(b: Block<'_>, k: usize, e: usize, events: &mut [u16; EVENTS], found: Found) -> Found
    requires { WordPart k e × Sweepable b.line.now b.at.now b.part.first e b.cols.now b.row.now b.lasts.now × Swept b.line.now b.at.now b.part.first b.cols.now b.row.now b.lasts.now b.part.metal (64 * k) events.old found }
    ensures { Swept b.entry.line.now b.entry.at.now b.entry.part.first b.entry.cols.now b.entry.row.now b.entry.lasts.now b.entry.part.metal e events.new result }
{
    let w = b.row[k];
    let y = b.lasts[k];
    let mut f = found;
    let mut c = 64 * k;
    // Kept: from one column that may be an event to the next, and no iterator has those.
    while c < e {
        let j = next_noisy(w, y, c - 64 * k, f.metal);
        c = 64 * k + j;
        if e <= c {
            return f;
        }
        f = step(
            b,
            c,
            word_bits::is_on(w, j),
            word_bits::is_on(y, j),
            events,
            f,
        );
        c += 1;
    }
    f
}

// The columns of word k before e, where they are said to be crossings alone or not.
#[tactic(auto, using(crate::proofs::AloneLaws::said_there, crate::proofs::AloneLaws::said_fits, crate::proofs::AloneLaws::said_fits_word, crate::proofs::AloneLaws::part_long, crate::proofs::AloneLaws::part_alone))]
fn sweep_part(b: Block<'_>, k: usize, e: usize, events: &mut [u16; EVENTS], f: Found) -> Found
    requires { WordPart k e × Sweepable b.line.now b.at.now b.part.first e b.cols.now b.row.now b.lasts.now × SaidAlone b.line.now b.cols.now b.part.first e b.part.alone × Swept b.line.now b.at.now b.part.first b.cols.now b.row.now b.lasts.now b.part.metal (64 * k) events.old f }
    ensures { Swept b.entry.line.now b.entry.at.now b.entry.part.first b.entry.cols.now b.entry.row.now b.entry.lasts.now b.entry.part.metal e events.new result }
{
    let bits = b.row[k];
    let ends = b.lasts[k];
    let a = b.part.first;
    if b.part.alone
        && line_events::many_noisy(bits, ends, f.metal)
        && line_events::all_alone(b.line, b.at, a + 64 * k, a + e, ends == 0)
    {
        return line_events::sweep_alone(bits, ends, k, e, events, f);
    }
    sweep_word(b, k, e, events, f)
}

// The events of a block; how many.
pub fn sweep<'a>(
    x: Crossings<'a>,
    cols: &'a [usize; COLUMNS],
    row: &'a [u64; W],
    lasts: &'a [u64; W],
    p: Part,
    events: &mut [u16; EVENTS],
) -> usize
    requires { Sweepable x.line.now x.at.now p.first p.size cols.now row.now lasts.now × SaidAlone x.line.now cols.now p.first p.size p.alone }
    ensures { Listed (ends_in x.entry.line.now x.entry.at.now p.first cols.now) (cell row.now) (cell lasts.now) p.metal p.size events.new result }
{
    let b = Block {
        line: x.line,
        at: x.at,
        cols,
        row,
        lasts,
        part: p,
    };
    let n = p.size;
    let mut f = Found {
        metal: p.metal,
        count: 0,
    };
    for k in 0..n.div_ceil(64) {
        f = sweep_part(b, k, n.min(64 * (k + 1)), events, f);
    }
    usize::from(f.count)
}
