// Crossings alone: which of them are their lines' last, a bit each, and how many of them a block takes. See specs/Runs.antt.
#![tactic(auto)]

ghost use Rattle.std.specs.Prelude.{◌≡◌, ◌+◌, ◌<◌, ◌≤◌, length};
ghost use Rattle.line_lists.specs.Block.{columns, SaidNumbered};
ghost use Rattle.line_runs.specs.Runs.{over_at, last_of_line, Ends, LineEnds, EndsNoted, Numbered, CutTo};

use line_lists::{COLUMNS, W};

const LAST: usize = W - 1;

// Line l is over before crossing i.
#[tactic(auto, using(crate::proofs::EndLaws::over_end, crate::proofs::EndLaws::over_on))]
pub fn is_over(line: &[u32], l: usize, i: usize) -> bool
    requires { i ≤ length line.now }
    ensures { result ≡ over_at line.now l i }
{
    i == line.len() || line[i] as usize != l
}

// The crossing at i, which is not the list's last, is its line's last.
pub fn last_of_line(line: &[u32], i: usize) -> bool
    requires { i + 1 < length line.now }
    ensures { result ≡ last_of_line line.now i }
{
    line[i + 1] != line[i]
}

// Which of n crossings from i on are their lines' last, a bit each; the list's last crossing is not among them. No branch: then many are compared at once.
#[tactic(auto, using(crate::proofs::EndLaws::ends_none, crate::proofs::EndLaws::ends_more))]
fn flags(line: &[u32], i: usize, n: usize) -> u64
    requires { (n ≤ 64) × (i + n < length line.now) }
    ensures { Ends line.now i n result }
{
    let mut w: u64 = 0;
    for t in 0..n {
        w |= u64::from(last_of_line(line, i + t)) << t;
    }
    w
}

// The same of 64, in eights, whose number the machine code knows.
#[tactic(auto, using(crate::proofs::EndLaws::ends_none, crate::proofs::EndLaws::ends_eight))]
fn flags_64(line: &[u32], i: usize) -> u64
    requires { i + 64 < length line.now }
    ensures { Ends line.now i 64 result }
{
    let mut w: u64 = 0;
    for k in 0..8 {
        w |= flags(line, i + 8 * k, 8) << (8 * k);
    }
    w
}

// Which of the crossings from i on are their lines' last, a bit each: the list's last crossing is its line's last.
#[tactic(auto, using(crate::proofs::EndLaws::flags_ends, crate::proofs::EndLaws::rest_ends))]
fn line_ends(line: &[u32], i: usize) -> u64
    requires { i < length line.now }
    ensures { LineEnds line.now i result }
{
    let left = line.len() - i;
    if 64 < left {
        return flags_64(line, i);
    }
    flags(line, i, left - 1) | (1 << (left - 1))
}

// The lasts of n crossings alone, from i on.
#[tactic(auto, using(crate::proofs::EndLaws::run_none, crate::proofs::EndLaws::run_all))]
pub fn note_ends(lasts: &mut [u64; W], line: &[u32], i: usize, n: usize)
    requires { (n ≤ columns) × (i + n ≤ length line.now) }
    ensures { EndsNoted line.now i n lasts.new n }
{
    for k in 0..n.div_ceil(64) {
        lasts[k] = line_ends(line, i + 64 * k);
    }
}

#[tactic(auto, using(crate::proofs::EndLaws::numbered_none, crate::proofs::EndLaws::numbered_more, crate::proofs::EndLaws::numbered_all))]
fn number(cols: &mut [usize; COLUMNS])
    ensures { Numbered cols.new columns }
{
    for (c, column) in cols.iter_mut().enumerate() {
        *column = c;
    }
}

// The columns numbered, if they are not so already: most blocks of crossings alone come after another one.
#[tactic(auto, using(crate::proofs::EndLaws::numbered_said))]
pub fn number_once(cols: &mut [usize; COLUMNS], numbered: bool)
    requires { SaidNumbered cols.old numbered }
    ensures { Numbered cols.new columns }
{
    if !numbered {
        number(cols);
    }
}

// Of n crossings alone, as many as the block takes: where it is full, up to the last line's end in its last word, so that the next block begins with a line and no shape's state has to be carried.
#[tactic(auto, using(crate::proofs::EndLaws::cut_none))]
pub fn cut(lasts: &[u64; W], n: usize) -> usize
    ensures { CutTo lasts.now n result }
{
    if n < COLUMNS {
        return n;
    }
    let j = line_bits::after_last(lasts[LAST]);
    if j == 0 {
        return n;
    }
    64 * LAST + j
}
