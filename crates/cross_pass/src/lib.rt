// The passes over many lines, none of which is at fault: their crossings counted, and all lines written one after another.
#![tactic(auto)]

ghost use Rattle.std.specs.Prelude.{◌≡◌, ℕ, ◌*◌, ◌<◌, ◌≤◌, List, length, drop, Float};
ghost use Rattle.outcome.specs.Outcome.{given};
ghost use Rattle.lines.specs.Lines.{line_lists};
ghost use Rattle.cross_cuts.specs.Keys.{Held};
ghost use Rattle.cross_shapes.specs.declared.Probe.{Probe};
ghost use Rattle.cross_line.specs.Crossing.{shape_cuts};
ghost use Rattle.cross_drawn.specs.Asking.{line_judged};
ghost use Rattle.cross_drawn.specs.Lent.{probe_from, probes_of};
ghost use Rattle.cross_drawn.specs.Refusing.{gives};
ghost use Rattle.cross_drawn.specs.Drawn.{lines_from, drawn};
ghost use Rattle.cross_drawn.specs.Judging.{lines_judged};
ghost use Rattle.cross_drawn.specs.Gathered.{Sound};
ghost use Rattle.cross_pass.specs.Passing.{Passing, RoomFor, Fits, LinePut, AllWritten};

use cross_axis::{RANKS, Ranks};
use cross_columns::{Columns, FACES, PART};
use cross_kept::Kept;
use cross_line::Drawing;

// What a pass works in: the drawing in columns; the ranks of the line and two of its axes, kept from line to line; and what the line has.
#[derive(Drop)]
struct Pass {
    columns: Columns,
    ranks: Ranks,
    kept: Option<Kept>,
    bytes: [u8; PART],
    keys: [u64; 2 * PART],
}

impl Pass {
    // Before the first line, with no columns yet: they are filled where the pass stands, since a function that answered a pass would copy
    // its 26 KB on the stack.
    const EMPTY: Pass = Pass {
        columns: Columns {
            lows: [0.0; FACES],
            highs: [0.0; FACES],
            halves: [0; PART],
        },
        ranks: Ranks {
            lessers: [0; RANKS],
            greaters: [0; RANKS],
        },
        kept: None,
        bytes: [0; PART],
        keys: [0; 2 * PART],
    };
}

// Gathers what line k has of its shapes, and answers how many crossings.
fn gather(drawing: Drawing<'_>, lines: &[f64], k: usize, pass: &mut Pass) -> usize
    requires passing { Passing drawing.kinds.now drawing.numbers.now pass.old × (k < 4294967296) }
    requires judged { line_judged drawing.kinds.now drawing.numbers.now (probe_from (drop (6 * k) lines.now)) ≡ given tt }
    ensures passing { Passing drawing.entry.kinds.now drawing.entry.numbers.now pass.new }
    ensures sound { Sound drawing.entry.kinds.now drawing.entry.numbers.now (probe_from (drop (6 * k) lines.now)) pass.new.bytes pass.new.keys result }
{
    let probe = cross_drawn::probe_at(lines, k);
    cross_kept::keep(
        probe,
        lines,
        k,
        &mut pass.kept,
        drawing.kinds.len(),
        &pass.columns,
        &mut pass.ranks,
    );
    let Some(kept) = &pass.kept else {
        unreachable!()
    };
    cross_kept::over_axes(
        probe,
        kept,
        &pass.columns,
        &mut pass.ranks,
        &mut pass.bytes,
        &mut pass.keys,
    )
}

// How many crossings all lines have, none of which is at fault.
pub fn count_lines(drawing: Drawing<'_>, lines: &[f64], count: usize) -> usize
    requires kinds_len_bound { (length drawing.kinds.now ≤ 256) × (count ≡ length (probes_of lines.now)) × (count ≤ 4294967296) }
    requires lines_value { lines_judged 0 drawing.kinds.now drawing.numbers.now (probes_of lines.now) ≡ gives tt }
    ensures { result ≡ length (lines_from 0 (drawn drawing.entry.kinds.now drawing.entry.numbers.now (probes_of lines.now))) }
{
    let mut pass = Pass::EMPTY;
    cross_columns::fill_columns(drawing, &mut pass.columns);
    let mut total = 0usize;
    for k in 0..count {
        total += gather(drawing, lines, k, &mut pass);
    }
    total
}

// Writes line k, where its row and the crossings before it end.
// Kept: four lists, as the C interface lends them; of a struct of `&mut` that is built from them the promise on them stayed open.
fn write_line(
    k: usize,
    at: usize,
    n: usize,
    m: usize,
    pass: &mut Pass,
    rows: &mut [u8],
    line_numbers: &mut [u32],
    positions: &mut [i32],
    shapes: &mut [u16],
)
    requires { Held 256 pass.old.bytes pass.old.keys n m × RoomFor k at n m (line_lists rows.old line_numbers.old positions.old shapes.old) }
    ensures put { (probe : Probe) (kinds : List ℕ) (numbers : List Float) → Sound kinds numbers probe pass.old.bytes pass.old.keys m → n ≡ length kinds
        → LinePut (shape_cuts probe kinds numbers) k at (n * k) (line_lists rows.old line_numbers.old positions.old shapes.old) (line_lists rows.new line_numbers.new positions.new shapes.new) }
    ensures still { (kinds : List ℕ) (numbers : List Float) → Passing kinds numbers pass.old → Passing kinds numbers pass.new }
{
    let row = n * k;
    cross_answer::write(
        n,
        m,
        &pass.bytes,
        &mut pass.keys,
        &mut rows[row..],
        &mut positions[at..],
        &mut shapes[at..],
    );
    line_numbers[at..at + m].fill(k as u32);
}

// Writes all lines, none of which is at fault, and answers how many crossings they have.
pub fn write_lines(
    drawing: Drawing<'_>,
    lines: &[f64],
    rows: &mut [u8],
    line_numbers: &mut [u32],
    positions: &mut [i32],
    shapes: &mut [u16],
) -> usize
    requires kinds_len_bound { (length drawing.kinds.now ≤ 256) × (length (probes_of lines.now) ≤ 4294967296) }
    requires lines_value { lines_judged 0 drawing.kinds.now drawing.numbers.now (probes_of lines.now) ≡ gives tt }
    requires fits { Fits (drawn drawing.kinds.now drawing.numbers.now (probes_of lines.now)) (line_lists rows.old line_numbers.old positions.old shapes.old) }
    ensures { AllWritten (drawn drawing.entry.kinds.now drawing.entry.numbers.now (probes_of lines.now)) (line_lists rows.old line_numbers.old positions.old shapes.old) result (line_lists rows.new line_numbers.new positions.new shapes.new) }
{
    let mut pass = Pass::EMPTY;
    cross_columns::fill_columns(drawing, &mut pass.columns);
    let mut at = 0usize;
    for k in 0..cross_drawn::line_count(lines) {
        let m = gather(drawing, lines, k, &mut pass);
        write_line(
            k,
            at,
            drawing.kinds.len(),
            m,
            &mut pass,
            rows,
            line_numbers,
            positions,
            shapes,
        );
        at += m;
    }
    at
}
