// One line over its axes: of the shapes that two axes leave over the third is asked, sixteen at a time and without a branch, and the few
// that are crossed are gathered as for one line.
#![tactic(auto)]

ghost use Rattle.std.specs.Prelude.{◌≡◌, List, ℕ, ◌+◌, ◌-◌, ◌<◌, ◌≤◌, min, length, get_or};
ghost use Rattle.cross_axis.specs.Axes.{Fillable, Beside};
ghost use Rattle.cross_columns.specs.Columns.{cuts_in};
ghost use Rattle.cross_cuts.specs.Cuts.{Cut, fault};
ghost use Rattle.cross_cuts.specs.Keys.{cut_of, Held, Ends};
ghost use Rattle.cross_shapes.specs.declared.Probe.{Probe};
ghost use Rattle.cross_shapes.specs.Shapes.{is_zero, face_cut, half_space_cut};
ghost use Rattle.cross_hits.specs.Hits.{enters, leaves, level_at, slant_at, Chosen, MetAt, Told, Begun, Crosses, Clear, Reached};

use cross_axis::{Along, Ranks, TOGETHER};
use cross_columns::{Columns, PART};
use cross_cuts::Met;
use cross_shapes::Probe;

// Shapes are asked for by the sixteen; and so many sixteens a drawing has.
pub const BLOCK: usize = 16;

pub const MASKS: usize = PART / BLOCK;

// The axis that stands alone: where its part starts, and the line's numbers on it; how many shapes there are; and of which sixteens the two
// other axes leave something over, by bits.
#[derive(Clone, Copy, Drop)]
pub struct Alone {
    pub start: usize,
    pub along: Along,
    pub shapes: usize,
    pub left: u64,
}

// Shapes from one on, sixteen or fewer; which of them may be crossed, by bits; and how many crossings are gathered before them.
#[derive(Drop)]
struct Block {
    start: usize,
    size: usize,
    hits: u64,
    count: usize,
}

fn is_level(alone: Alone) -> bool
    ensures { result ≡ is_zero alone.along.component }
{
    cross_shapes::is_zero(alone.along.component)
}

fn entered(i: usize, alone: Alone, ranks: &Ranks) -> u32
    requires { (i < 256) × (alone.start ≤ 512) }
    ensures { result ≡ enters alone ranks.now.lessers i }
{
    let at = alone.start + i;
    let together = TOGETHER + i;
    if is_level(alone) {
        return 0u32.max(ranks.lessers[together]);
    }
    ranks.lessers[at].max(ranks.lessers[together])
}

fn left(i: usize, alone: Alone, ranks: &Ranks) -> u32
    requires { (i < 256) × (alone.start ≤ 512) }
    ensures { result ≡ leaves alone ranks.now.greaters i }
{
    let at = alone.start + i;
    let together = TOGETHER + i;
    if is_level(alone) {
        return u32::MAX.min(ranks.greaters[together]);
    }
    ranks.greaters[at].min(ranks.greaters[together])
}

// Which of sixteen are to be asked for, by bits. There is no branch.
pub fn picked<F: Fn(usize) -> bool>(wanted: F) -> u32
    requires { (c : ℕ) → c < 16 → F.pre wanted c }
    ensures { Chosen (F.post wanted) 16 result }
{
    let mut bits = 0u32;
    for j in 0..BLOCK {
        bits = word_bits::with_bit(bits, j, wanted(j));
    }
    bits
}

// Between whose faces a level line is, or a half-space.
fn level_at(i: usize, alone: Alone, columns: &Columns) -> bool
    requires { (i < 256) × (alone.start ≤ 512) }
    ensures { result ≡ level_at alone columns.now.halves columns.now.lows columns.now.highs i }
{
    let along = alone.along;
    let at = alone.start + i;
    (columns.halves[i] != 0)
        | ((columns.lows[at] < along.origin) & (along.origin < columns.highs[at]))
}

// A box that is crossed, or a half-space.
fn slant_at(i: usize, alone: Alone, columns: &Columns, ranks: &Ranks) -> bool
    requires { (i < 256) × (alone.start ≤ 512) }
    ensures { result ≡ slant_at alone columns.now.halves ranks.now.lessers ranks.now.greaters i }
{
    let a = entered(i, alone, ranks);
    let b = left(i, alone, ranks);
    (columns.halves[i] != 0) | (a < b)
}

// A face that lies across an axis, with its position worked out as those of boxes are: none where it may not be given.
fn face_met(face: f64, origin: f64, component: f64) -> Option<Met>
    ensures { cut_of result ≡ face_cut face origin component }
{
    if cross_shapes::is_zero(component) {
        return Some(Met::Never(origin < face));
    }
    let p = cross_positions::distance_to(face, origin, component);
    if cross_quick::within(p) {
        let rank = cross_quick::rank_of_nearest(p);
        return Some(Met::Once(0.0 < component, rank));
    }
    None
}

// A half-space by its axis, 1 more: none where it is at fault.
fn half_met(probe: Probe, half: u32, face: f64) -> Option<Met>
    requires { 0 < half }
    ensures { cut_of result ≡ half_space_cut probe (half - 1) face }
{
    if !cross_shapes::is_finite(face) {
        return None;
    }
    match half {
        1 => face_met(face, probe.ox, probe.dx),
        2 => face_met(face, probe.oy, probe.dy),
        3 => face_met(face, probe.oz, probe.dz),
        _ => None,
    }
}

// What is met of shape i: none where it is at fault.
fn met_at(probe: Probe, i: usize, alone: Alone, columns: &Columns, ranks: &Ranks) -> Option<Met>
    requires { (i < 256) × (alone.start ≤ 512) }
    ensures { (cuts : List Cut) → MetAt probe cuts alone columns.now.halves columns.now.lows ranks.now.lessers ranks.now.greaters i
        → cut_of result ≡ get_or cuts i fault }
{
    if columns.halves[i] != 0 {
        return half_met(probe, columns.halves[i], columns.lows[i]);
    }
    let a = entered(i, alone, ranks);
    let b = left(i, alone, ranks);
    if a < b {
        return Some(Met::Twice(a, b));
    }
    Some(Met::Never(false))
}

// Gathers the shapes of a block that may be crossed: so many crossings are there then, or the first shape at fault.
fn visit(
    probe: Probe,
    block: Block,
    alone: Alone,
    columns: &Columns,
    ranks: &Ranks,
    bytes: &mut [u8],
    keys: &mut [u64],
) -> Result<usize, usize>
    requires size_bound { (block.start + block.size ≤ 256) × (alone.start ≤ 512) }
    requires held { Held 256 bytes.old keys.old block.start block.count }
    ensures reached { (cuts : List Cut) → Begun probe cuts alone columns.now.halves columns.now.lows ranks.now.lessers ranks.now.greaters bytes.old keys.old block
        → Reached cuts columns.now.halves bytes.new keys.new (block.start + block.size) result }
    ensures bytes_len { (length bytes.new ≡ 256) × (length keys.new ≡ 512) }
{
    let mut rest = block.hits;
    let mut m = block.count;
    // Kept: a while, since no iterator goes through the bits that are on.
    while rest != 0 {
        let c = word_bits::lowest(rest);
        if block.size <= c {
            return Ok(m);
        }
        let i = block.start + c;
        match met_at(probe, i, alone, columns, ranks) {
            None => return Err(i),
            Some(met) => {
                m = cross_cuts::add(met, i, m, bytes, keys);
                rest = word_bits::others(rest);
            }
        }
    }
    Ok(m)
}

// Which of the shapes from start on may be crossed, by what the third axis says.
fn ask(start: usize, alone: Alone, columns: &Columns, ranks: &mut Ranks) -> u32
    requires start_bound { (start + 16 ≤ 256) × (start ≤ alone.shapes) × (alone.start ≤ 512) }
    requires fillable { Fillable (alone.start + start) (alone.start + start + min 16 (alone.shapes - start)) alone.along columns.now.lows columns.now.highs ranks.old.lessers ranks.old.greaters }
    ensures told { (probe : Probe) (cuts : List Cut) (masks : List ℕ) → Crosses probe cuts columns.now.lows columns.now.highs alone masks columns.now.halves ranks.old.lessers ranks.old.greaters
        → Told probe cuts alone columns.now.halves columns.now.lows ranks.new.lessers ranks.new.greaters start (min 16 (alone.shapes - start)) result }
    ensures beside { Beside alone.start (alone.start + 256) ranks.old.lessers ranks.new.lessers × Beside alone.start (alone.start + 256) ranks.old.greaters ranks.new.greaters }
{
    if is_level(alone) {
        return picked(|c| level_at(start + c, alone, columns));
    }
    let size = BLOCK.min(alone.shapes - start);
    cross_axis::fill_slant(alone.start + start, size, alone.along, columns, ranks);
    let said = &*ranks;
    picked(|c| slant_at(start + c, alone, columns, said))
}

// All the shapes of one line, as cross_line::gather gives them.
pub fn gather(
    probe: Probe,
    alone: Alone,
    masks: &[u32; MASKS],
    columns: &Columns,
    ranks: &mut Ranks,
    bytes: &mut [u8],
    keys: &mut [u64],
) -> Result<usize, usize>
    requires bytes_len { (length bytes.old ≡ 256) × (length keys.old ≡ 512) × Clear columns.now.halves bytes.old 0 alone.shapes }
    requires crosses { Crosses probe (cuts_in probe alone.shapes columns.now.lows columns.now.highs columns.now.halves) columns.now.lows columns.now.highs alone masks.now columns.now.halves ranks.old.lessers ranks.old.greaters }
    ensures ends { Ends 256 16 (cuts_in probe alone.shapes columns.now.lows columns.now.highs columns.now.halves) bytes.new keys.new result }
    ensures beside { Beside alone.start (alone.start + 256) ranks.old.lessers ranks.new.lessers × Beside alone.start (alone.start + 256) ranks.old.greaters ranks.new.greaters }
{
    let mut rest = alone.left;
    let mut m = 0usize;
    // Kept: a while, since no iterator goes through the bits that are on.
    while rest != 0 {
        let b = word_bits::lowest(rest);
        let start = BLOCK * b;
        if alone.shapes <= start {
            return Ok(m);
        }
        let asked = ask(start, alone, columns, ranks);
        let block = Block {
            start,
            size: BLOCK.min(alone.shapes - start),
            hits: u64::from(asked & masks[b]),
            count: m,
        };
        m = visit(probe, block, alone, columns, ranks, bytes, keys)?;
        rest = word_bits::others(rest);
    }
    Ok(m)
}
