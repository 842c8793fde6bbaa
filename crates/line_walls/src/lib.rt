// The line job for a formula in an array of codes: start rows and crossings judged, room asked for, then their walls written block by block.
#![tactic(auto)]

ghost use Rattle.std.specs.Prelude.{◌≡◌};
ghost use Rattle.lines.specs.Lines.{row_count};
ghost use Rattle.lines.specs.AtIndex.{Accepted};
ghost use Rattle.line_blocks.specs.Blocks.{call_lists, CanPass, FewCodes, SaidOf};
ghost use Rattle.line_blocks.specs.Walls.{room_for};
ghost use Rattle.line_writing.specs.Lists.{lists_in, SameLists};
ghost use Rattle.line_writing.specs.Writing.{HasRoom};
ghost use Rattle.line_walls.specs.Writing.{WallsWritten, WallsGiven};
ghost use Rattle.line_walls.specs.Answers.{JobDone};

use line_lists::{COLUMNS, Crossings, EVENTS, W};
use line_writing::lists::WallLists;
use outcome::Fault;

// Rows for results that few words hold: `line_words::FEW` has them.
const FEW_ROWS: usize = 16;

// The walls of accepted lists, block by block; how many.
// Kept: the loop ends by the pass's own cursor, which no iterator has.
fn blocks(
    table: &[u32],
    call: line_blocks::Call,
    words: &mut [u64],
    rows: &[u8],
    x: Crossings<'_>,
    walls: &mut WallLists<'_>,
) -> usize
    requires { CanPass table.now call.arranged call.names call.air (call_lists rows.now x) words.old × HasRoom (room_for call.names (call_lists rows.now x)) (lists_in walls.old) × (call.count ≡ row_count call.names rows.now) }
    ensures written { WallsWritten table.now call.arranged call.names (call_lists rows.now x.entry) (lists_in walls.old) result (lists_in walls.new) }
    ensures same { SameLists walls.old walls.new }
{
    let mut desk = line_blocks::Desk {
        cols: [0; COLUMNS],
        lasts: [0; W],
        events: [0; EVENTS],
    };
    let mut p = line_blocks::begin(rows, call);
    while line_blocks::is_left(p, x.line.len(), call.count) {
        p = line_blocks::step(table, call, words, rows, x, &mut desk, p, walls);
    }
    p.run.count
}

// The walls of accepted lists; how many. Only a formula whose results wait in many rows pays for clearing them.
fn write(
    codes: &[u16],
    names: usize,
    air: bool,
    rows: &[u8],
    x: Crossings<'_>,
    walls: &mut WallLists<'_>,
) -> usize
    requires { FewCodes codes.now names × Accepted names (call_lists rows.now x) × SaidOf air rows.now × HasRoom (room_for names (call_lists rows.now x)) (lists_in walls.old) }
    ensures given { WallsGiven codes.now names (call_lists rows.now x.entry) (lists_in walls.old) result (lists_in walls.new) }
    ensures same { SameLists walls.old walls.new }
{
    let mut table = [0; line_words::TABLE];
    let call = line_blocks::call_of(codes, names, air, rows, &mut table);
    if call.arranged.rows <= FEW_ROWS {
        let mut words = [0; line_words::FEW];
        return blocks(&table, call, &mut words, rows, x, walls);
    }
    let mut words = [0; line_words::MOST];
    blocks(&table, call, &mut words, rows, x, walls)
}

// The line job, where the codes are the formula's in postfix order; how many walls.
pub fn classify(
    codes: &[u16],
    names: usize,
    rows: &[u8],
    x: Crossings<'_>,
    walls: &mut WallLists<'_>,
) -> Result<usize, Fault>
    requires { FewCodes codes.now names }
    ensures done { JobDone codes.now names (call_lists rows.now x.entry) (lists_in walls.old) result (lists_in walls.new) }
    ensures same { SameLists walls.old walls.new }
{
    let air = line_checking::judge(names, rows, x)?;
    let need = x.line.len() / 2 + rows.len() / names;
    line_checking::room(
        need,
        walls.lines.len(),
        walls.starts.len(),
        walls.ends.len(),
        walls.start_shapes.len(),
        walls.end_shapes.len(),
    )?;
    Ok(write(codes, names, air, rows, x, walls))
}
