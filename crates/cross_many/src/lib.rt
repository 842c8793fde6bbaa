// Many lines' crossings with one drawing. The job asks nothing of its caller.
#![tactic(auto)]

ghost use Rattle.std.specs.Prelude.{◌≡◌, ◌/◌, ◌≤◌, length};
ghost use Rattle.lines.specs.Lines.{line_lists};
ghost use Rattle.cross_drawn.specs.Asking.{line_judged};
ghost use Rattle.cross_drawn.specs.Judging.{lines_judged};
ghost use Rattle.cross_drawn.specs.Lent.{probes_of};
ghost use Rattle.cross_drawn.specs.Refusing.{gives, of_line};
ghost use Rattle.cross_drawn.specs.Drawn.{drawn};
ghost use Rattle.cross_judge.specs.Covering.{Covers};
ghost use Rattle.cross_many.specs.Crossing.{crossing_many};
ghost use Rattle.cross_many.specs.Answer.{on_line, many_of, CrossedMany};
ghost use Rattle.cross_many.specs.Passing.{Wanted};

use cross_cuts::SHAPES;
use cross_judge::Reach;
use cross_line::Drawing;
use cross_shapes::Probe;
use outcome::{Fault, Reason, need};

// At most so many lines may be numbered.
const LINES: usize = 1 << 32;

// What the job gives: how many lines there are, and how many crossings.
#[derive(Clone, Copy, Debug, PartialEq, Eq)]
pub struct Counts {
    pub lines: usize,
    pub crossings: usize,
}

// What is wrong, and the number of its line: 0 where it is of no line.
#[derive(Clone, Copy, Debug, PartialEq, Eq)]
pub struct LineFault {
    pub fault: Fault,
    pub line: usize,
}

impl From<Fault> for LineFault {
    ghost from_gives = { λ f r. r ≡ on_line 0 f };

    fn from(fault: Fault) -> LineFault {
        LineFault { fault, line: 0 }
    }
}

// Line k by the way of one line, which names the shape at fault.
fn judge_alone(k: usize, probe: Probe, drawing: Drawing<'_>) -> Result<(), LineFault>
    requires { length drawing.kinds.now ≤ 256 }
    ensures { many_of result ≡ of_line k (line_judged drawing.entry.kinds.now drawing.entry.numbers.now probe) }
{
    let mut bytes = [0u8; SHAPES];
    let mut keys = [0u64; 2 * SHAPES];
    match cross_drawn::one_line(probe, drawing, &mut bytes, &mut keys) {
        Err(place) => Err(LineFault {
            fault: Reason::ShapeWrong.at(place),
            line: k,
        }),
        Ok(_) => Ok(()),
    }
}

// Line k by how far the drawing reaches, and where that does not decide by the way of one line.
fn judge_line(k: usize, probe: Probe, reach: Reach, drawing: Drawing<'_>) -> Result<(), LineFault>
    requires { (length drawing.kinds.now ≤ 256) × Covers drawing.kinds.now drawing.numbers.now (length drawing.kinds.now) reach }
    ensures { many_of result ≡ of_line k (line_judged drawing.entry.kinds.now drawing.entry.numbers.now probe) }
{
    if cross_judge::judge(probe, reach) {
        return Ok(());
    }
    judge_alone(k, probe, drawing)
}

fn judge_lines(drawing: Drawing<'_>, lines: &[f64], count: usize) -> Result<(), LineFault>
    requires { (length drawing.kinds.now ≤ 256) × (count ≡ length (probes_of lines.now)) × (count ≤ 4294967296) }
    ensures { many_of result ≡ lines_judged 0 drawing.entry.kinds.now drawing.entry.numbers.now (probes_of lines.now) }
{
    let reach = cross_judge::reach_of(drawing);
    for k in 0..count {
        judge_line(k, cross_drawn::probe_at(lines, k), reach, drawing)?;
    }
    Ok(())
}

// How many entries the lists of crossings have to have: none is asked for where there is room for two crossings a shape and line, else the
// crossings are counted.
fn wanted(drawing: Drawing<'_>, lines: &[f64], count: usize, room: usize) -> usize
    requires kinds_len_bound { (length drawing.kinds.now ≤ 256) × (count ≡ length (probes_of lines.now)) × (count ≤ 4294967296) }
    requires lines_value { lines_judged 0 drawing.kinds.now drawing.numbers.now (probes_of lines.now) ≡ gives tt }
    ensures { Wanted (drawn drawing.entry.kinds.now drawing.entry.numbers.now (probes_of lines.now)) room result }
{
    if drawing.kinds.len() * count <= room / 2 {
        return 0;
    }
    cross_pass::count_lines(drawing, lines, count)
}

// Gives all lines, none of which is at fault, where there is room in each list: 9 for rows, line numbers, positions, shapes in turn.
fn give_lines(
    drawing: Drawing<'_>,
    lines: &[f64],
    count: usize,
    rows: &mut [u8],
    line_numbers: &mut [u32],
    positions: &mut [i32],
    shapes: &mut [u16],
) -> Result<Counts, LineFault>
    requires kinds_len_bound { (length drawing.kinds.now ≤ 256) × (count ≡ length (probes_of lines.now)) × (count ≤ 4294967296) }
    requires lines_value { lines_judged 0 drawing.kinds.now drawing.numbers.now (probes_of lines.now) ≡ gives tt }
    ensures { CrossedMany (crossing_many drawing.entry.kinds.now drawing.entry.numbers.now lines.now (line_lists rows.old line_numbers.old positions.old shapes.old))
        (line_lists rows.old line_numbers.old positions.old shapes.old) result (line_lists rows.new line_numbers.new positions.new shapes.new) }
{
    outcome::room(drawing.kinds.len() * count, rows.len())?;
    let room = line_numbers.len().min(positions.len()).min(shapes.len());
    outcome::room(wanted(drawing, lines, count, room), room)?;
    let crossings = cross_pass::write_lines(drawing, lines, rows, line_numbers, positions, shapes);
    Ok(Counts {
        lines: count,
        crossings,
    })
}

// Crosses the shapes that are lent with many lines.
#[tactic(auto, unfolding(crate::specs::Crossing::crossing_probes))]
pub fn cross(
    drawing: Drawing<'_>,
    lines: &[f64],
    rows: &mut [u8],
    line_numbers: &mut [u32],
    positions: &mut [i32],
    shapes: &mut [u16],
) -> Result<Counts, LineFault>
    ensures { CrossedMany (crossing_many drawing.entry.kinds.now drawing.entry.numbers.now lines.now (line_lists rows.old line_numbers.old positions.old shapes.old))
        (line_lists rows.old line_numbers.old positions.old shapes.old) result (line_lists rows.new line_numbers.new positions.new shapes.new) }
{
    need(drawing.kinds.len() <= SHAPES, Reason::ShapeWrong, SHAPES)?;
    let count = cross_drawn::line_count(lines);
    need(count <= LINES, Reason::RowsWrong, 0)?;
    judge_lines(drawing, lines, count)?;
    give_lines(drawing, lines, count, rows, line_numbers, positions, shapes)
}
