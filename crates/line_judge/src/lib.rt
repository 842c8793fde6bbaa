// Another ray caster's wall list judged for a formula in an array of codes: the pass of classifying, where a block's walls are put into lists of our own and compared with their entries.
#![tactic(auto)]

ghost use Rattle.std.specs.Prelude.{◌≡◌, ◌&&◌, eqb, length};
ghost use Rattle.lines.specs.Lines.{row_count};
ghost use Rattle.lines.specs.AtIndex.{Accepted};
ghost use Rattle.line_blocks.specs.Blocks.{call_lists, CanPass, FewCodes, SaidOf, Sized};
ghost use Rattle.line_blocks.specs.Walls.{StepAsk, StepDone};
ghost use Rattle.line_opinion.specs.Judging.{their_lists};
ghost use Rattle.line_opinion.specs.Eating.{lists_of};
ghost use Rattle.line_judge.specs.Blocks.{own_lists, OpinionFound, OpinionGiven, JudgeDone};

use line_lists::{COLUMNS, Crossings, EVENTS, W};
use line_opinion::entries::Entries;
use line_writing::lists::WallLists;
use outcome::{Fault, Reason, need};

// Rows for results that few words hold: `line_words::FEW` has them.
const FEW_ROWS: usize = 16;

// Their list is right; or the index of the first entry after which no right list could begin that way.
#[derive(Clone, Copy, Debug, PartialEq, Eq)]
pub enum Opinion {
    Right,
    Wrong(usize),
}

// The walls of one block.
#[derive(Drop)]
struct BlockWalls {
    lines: [u32; COLUMNS],
    starts: [i32; COLUMNS],
    ends: [i32; COLUMNS],
    start_shapes: [u16; COLUMNS],
    end_shapes: [u16; COLUMNS],
}

// The next block of the pass, its walls put into lists of our own.
fn own_step(
    table: &[u32],
    call: line_blocks::Call,
    words: &mut [u64],
    rows: &[u8],
    x: Crossings<'_>,
    desk: &mut line_blocks::Desk,
    p: line_blocks::Progress,
    own: &mut BlockWalls,
) -> line_blocks::Progress
    requires { StepAsk table.now call.arranged call.names (call_lists rows.now x) words.old p (own_lists own.old) × Sized desk.old.cols desk.old.lasts desk.old.events p.pass.numbered × (call.count ≡ row_count call.names rows.now) }
    ensures { StepDone table.now call.arranged call.names (call_lists rows.now x.entry) words.old p (own_lists own.old) words.new desk.new.cols desk.new.lasts desk.new.events result (own_lists own.new) }
{
    let mut walls = WallLists {
        lines: &mut own.lines,
        starts: &mut own.starts,
        ends: &mut own.ends,
        start_shapes: &mut own.start_shapes,
        end_shapes: &mut own.end_shapes,
    };
    line_blocks::step(table, call, words, rows, x, desk, p, &mut walls)
}

// Their list against the walls of accepted lists, block by block. It ends with the block of the first wrong entry; after our last wall there may be no entry more.
// Kept: line_walls::blocks is the same loop, but each block's walls go on from the last one's; a generic loop would be no plainer, since its trait would have to say what both keep of lists, entries and a way out. The loop ends by the pass's own cursor, which no iterator has.
fn blocks(
    table: &[u32],
    call: line_blocks::Call,
    words: &mut [u64],
    rows: &[u8],
    x: Crossings<'_>,
    list: Entries<'_>,
) -> Opinion
    requires { CanPass table.now call.arranged call.names call.air (call_lists rows.now x) words.old × (call.count ≡ row_count call.names rows.now) }
    ensures { OpinionFound table.now call.arranged call.names (call_lists rows.now x.entry) (lists_of list.entry) result }
{
    let mut desk = line_blocks::Desk {
        cols: [0; COLUMNS],
        lasts: [0; W],
        events: [0; EVENTS],
    };
    let mut own = BlockWalls {
        lines: [0; COLUMNS],
        starts: [0; COLUMNS],
        ends: [0; COLUMNS],
        start_shapes: [0; COLUMNS],
        end_shapes: [0; COLUMNS],
    };
    let mut p = line_blocks::begin(rows, call);
    let mut next = 0;
    while line_blocks::is_left(p, x.line.len(), call.count) {
        p.run.count = 0;
        p = own_step(table, call, words, rows, x, &mut desk, p, &mut own);
        let n = p.run.count;
        let ours = Entries {
            lines: &own.lines[..n],
            starts: &own.starts[..n],
            ends: &own.ends[..n],
        };
        match line_opinion::eat_all(list, next, ours) {
            Ok(after) => next = after,
            Err(index) => return Opinion::Wrong(index),
        }
    }
    if next < list.lines.len() {
        return Opinion::Wrong(next);
    }
    Opinion::Right
}

// The opinion of accepted lists. Only a formula whose results wait in many rows pays for clearing them.
// Kept: line_walls::write is the same but for the call of blocks, twice three lines: a closure over the words would be no plainer.
fn opine(
    codes: &[u16],
    names: usize,
    air: bool,
    rows: &[u8],
    x: Crossings<'_>,
    list: Entries<'_>,
) -> Opinion
    requires { FewCodes codes.now names × Accepted names (call_lists rows.now x) × SaidOf air rows.now }
    ensures { OpinionGiven codes.now names (call_lists rows.now x.entry) (lists_of list.entry) result }
{
    let mut table = [0; line_words::TABLE];
    let call = line_blocks::call_of(codes, names, air, rows, &mut table);
    if call.arranged.rows <= FEW_ROWS {
        let mut words = [0; line_words::FEW];
        return blocks(&table, call, &mut words, rows, x, list);
    }
    let mut words = [0; line_words::MOST];
    blocks(&table, call, &mut words, rows, x, list)
}

fn alike(tl: &[u32], ts: &[i32], te: &[i32]) -> bool
    ensures { result ≡ (eqb (length ts.now) (length tl.now) && eqb (length te.now) (length tl.now)) }
{
    ts.len() == tl.len() && te.len() == tl.len()
}

// The line job of judging, where the codes are the formula's in postfix order.
pub fn judge(
    codes: &[u16],
    names: usize,
    rows: &[u8],
    x: Crossings<'_>,
    tl: &[u32],
    ts: &[i32],
    te: &[i32],
) -> Result<Opinion, Fault>
    requires { FewCodes codes.now names }
    ensures { JudgeDone codes.now names (call_lists rows.now x.entry) (their_lists tl.now ts.now te.now) result }
{
    need(alike(tl, ts, te), Reason::LengthsDiffer, 0)?;
    let air = line_checking::judge(names, rows, x)?;
    let list = Entries {
        lines: tl,
        starts: ts,
        ends: te,
    };
    Ok(opine(codes, names, air, rows, x, list))
}
