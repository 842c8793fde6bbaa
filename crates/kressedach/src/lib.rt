// The jobs for C and Rust: each is one call of a proved job, and a struct of numbers, which is what an exported function may return. Beside
// them the library's version.
// The header and the Rust crate in bindings/ declare the same again; their tests compare the declarations with this file.
#![tactic(auto)]

ghost use Rattle.std.specs.Prelude.{◌≡◌, length};
ghost use Rattle.sheet.specs.Sheet.{sheets_of};
ghost use Rattle.sheet_reading.specs.Reading.{told};
ghost use Rattle.job_name.specs.Naming.{placing};
ghost use Rattle.job_names.specs.Names.{naming_all};
ghost use Rattle.job_move.specs.Moving.{moving};
ghost use Rattle.job_build.specs.Building.{building};
ghost use Rattle.job_run.specs.Running.{running};
ghost use Rattle.job_edit.specs.Editing.{lists as edit_lists, running_edited};
ghost use Rattle.job_both.specs.Shared.{lists};
ghost use Rattle.lines.specs.Lines.{line_lists, answer_lists};
ghost use Rattle.job_classify.specs.Classifying.{classifying};
ghost use Rattle.line_opinion.specs.Judging.{their_lists};
ghost use Rattle.job_judge.specs.Judging.{judging};
ghost use Rattle.job_judge.specs.Judged.{judged_of};
ghost use Rattle.outcome.specs.Refusing.{answered, judged};
ghost use Rattle.cross_answer.specs.Answer.{made_lists};
ghost use Rattle.cross_line.specs.Crossing.{crossing_shapes};
ghost use Rattle.cross_balls.specs.Balls.{crossing_balls};
ghost use Rattle.cross_many.specs.Crossing.{crossing_many};
ghost use Rattle.cross_many.specs.Answer.{many_of};
ghost use Rattle.kressedach.specs.Report.{sheet_of, read_report, name_report, run_report, classify_report, judge_report, probe_of, cross_report, cross_many_report, NamesReported, MoveReported, BuildReported, RunReported, EditReported, BothReported, ClassifyReported, CrossReported, CrossManyReported};
ghost use Rattle.kressedach.specs.Version.{version};

use cross_line::Drawing;
use cross_many::LineFault;
use cross_shapes::Probe;
use edits::EditLists;
use job_name::Place;
use line_judge::Opinion;
use line_lists::Crossings;
use line_writing::lists::WallLists;
use outcome::{Fault, Refusal};

#[repr(C)]
#[derive(Drop)]
pub struct ReadReport {
    pub number: u8,
    pub sheet: u8,
    pub place: usize,
    pub names: usize,
    pub leaves: usize,
    pub first: usize,
    pub past: usize,
}

#[repr(C)]
#[derive(Drop)]
pub struct BuildReport {
    pub number: u8,
    pub sheet: u8,
    pub place: usize,
    pub leaves: usize,
    pub nodes: usize,
    pub rounds: usize,
    pub height: usize,
}

#[repr(C)]
#[derive(Drop)]
pub struct RunReport {
    pub number: u8,
    pub sheet: u8,
    pub place: usize,
    pub nodes: usize,
}

#[repr(C)]
#[derive(Drop)]
pub struct BothReport {
    pub first: RunReport,
    pub second: RunReport,
}

#[repr(C)]
#[derive(Drop)]
pub struct ClassifyReport {
    pub number: u8,
    pub sheet: u8,
    pub place: usize,
    pub walls: usize,
}

#[repr(C)]
#[derive(Drop)]
pub struct JudgeReport {
    pub number: u8,
    pub sheet: u8,
    pub right: bool,
    pub place: usize,
    pub index: usize,
}

#[repr(C)]
#[derive(Drop)]
pub struct CrossReport {
    pub number: u8,
    pub place: usize,
    pub shapes: usize,
    pub crossings: usize,
}

#[repr(C)]
#[derive(Drop)]
pub struct CrossManyReport {
    pub number: u8,
    pub place: usize,
    pub line: usize,
    pub lines: usize,
    pub crossings: usize,
}

#[repr(C)]
#[derive(Drop)]
pub struct NameReport {
    pub number: u8,
    pub sheet: u8,
    pub place: usize,
    pub first: usize,
    pub past: usize,
}

#[repr(C)]
#[derive(Drop)]
pub struct NamesReport {
    pub number: u8,
    pub sheet: u8,
    pub place: usize,
    pub names: usize,
}

#[repr(C)]
#[derive(Drop)]
pub struct MoveReport {
    pub number: u8,
    pub sheet: u8,
    pub place: usize,
    pub length: usize,
}

// Gives the version of the library.
#[unsafe(no_mangle)]
pub extern "C" fn kressedach_version() -> u32
    ensures { result ≡ version }
{
    1000
}

// Which sheet the place of a refusal is in: 2, the customer's; or 0, none.
fn sheet_of(number: u8) -> u8
    ensures { result ≡ sheet_of number }
{
    if number <= 7 {
        return 2;
    }
    if number == 17 {
        return 2;
    }
    0
}

// Reads the sheets of a call.
#[unsafe(no_mangle)]
pub extern "C" fn kressedach_read(fitted: bool, fittings: &[u8], sheet: &[u8]) -> ReadReport
    ensures { result ≡ read_report (told (sheets_of fitted fittings.now sheet.now)) }
{
    match sheet_reading::read_sheets(fitted, fittings, sheet) {
        Ok(read) => ReadReport {
            number: 0,
            sheet: 0,
            place: 0,
            names: read.names,
            leaves: read.leaves,
            first: read.first,
            past: read.past,
        },
        Err(Refusal::Refused(fault)) => {
            let number = fault.reason.number();
            ReadReport {
                number,
                sheet: sheet_of(number),
                place: fault.place,
                names: 0,
                leaves: 0,
                first: 0,
                past: 0,
            }
        }
        Err(Refusal::Unfit(fault)) => ReadReport {
            number: fault.reason.number(),
            sheet: 1,
            place: fault.place,
            names: 0,
            leaves: 0,
            first: 0,
            past: 0,
        },
    }
}

// Asks where a shape's name stands.
#[unsafe(no_mangle)]
pub extern "C" fn kressedach_name(
    fitted: bool,
    fittings: &[u8],
    sheet: &[u8],
    shape: usize,
) -> NameReport
    ensures { result ≡ name_report (placing (sheets_of fitted fittings.now sheet.now) shape) }
{
    match job_name::place_name(fitted, fittings, sheet, shape) {
        Ok(Place::Fitting { first, past }) => NameReport {
            number: 0,
            sheet: 1,
            place: 0,
            first,
            past,
        },
        Ok(Place::Own { first, past }) => NameReport {
            number: 0,
            sheet: 2,
            place: 0,
            first,
            past,
        },
        Err(Refusal::Refused(fault)) => {
            let number = fault.reason.number();
            NameReport {
                number,
                sheet: sheet_of(number),
                place: fault.place,
                first: 0,
                past: 0,
            }
        }
        Err(Refusal::Unfit(fault)) => NameReport {
            number: fault.reason.number(),
            sheet: 1,
            place: fault.place,
            first: 0,
            past: 0,
        },
    }
}

// Asks where the name of every shape stands.
#[unsafe(no_mangle)]
pub extern "C" fn kressedach_names(
    fitted: bool,
    fittings: &[u8],
    sheet: &[u8],
    sheets: &mut [u8],
    firsts: &mut [usize],
    pasts: &mut [usize],
) -> NamesReport
    ensures { NamesReported (naming_all (sheets_of fitted fittings.now sheet.now) (length sheets.old) (length firsts.old) (length pasts.old))
        sheets.old firsts.old pasts.old result sheets.new firsts.new pasts.new }
{
    match job_names::place_names(fitted, fittings, sheet, sheets, firsts, pasts) {
        Ok(names) => NamesReport {
            number: 0,
            sheet: 0,
            place: 0,
            names,
        },
        Err(Refusal::Refused(fault)) => {
            let number = fault.reason.number();
            NamesReport {
                number,
                sheet: sheet_of(number),
                place: fault.place,
                names: 0,
            }
        }
        Err(Refusal::Unfit(fault)) => NamesReport {
            number: fault.reason.number(),
            sheet: 1,
            place: fault.place,
            names: 0,
        },
    }
}

// Gives the customer's sheet in the edition that it has not.
#[unsafe(no_mangle)]
pub extern "C" fn kressedach_move(
    fitted: bool,
    fittings: &[u8],
    sheet: &[u8],
    moved: &mut [u8],
) -> MoveReport
    ensures { MoveReported (moving (sheets_of fitted fittings.now sheet.now) (length moved.old)) moved.old result moved.new }
{
    match job_move::move_sheet(fitted, fittings, sheet, moved) {
        Ok(length) => MoveReport {
            number: 0,
            sheet: 0,
            place: 0,
            length,
        },
        Err(Refusal::Refused(fault)) => {
            let number = fault.reason.number();
            MoveReport {
                number,
                sheet: sheet_of(number),
                place: fault.place,
                length: 0,
            }
        }
        Err(Refusal::Unfit(fault)) => MoveReport {
            number: fault.reason.number(),
            sheet: 1,
            place: fault.place,
            length: 0,
        },
    }
}

// Builds the contracted tree of the sheets' formula.
#[unsafe(no_mangle)]
pub extern "C" fn kressedach_build(
    fitted: bool,
    fittings: &[u8],
    sheet: &[u8],
    kinds: &mut [u16],
    firsts: &mut [u16],
    seconds: &mut [u16],
) -> BuildReport
    ensures { BuildReported (building (sheets_of fitted fittings.now sheet.now) (length kinds.old) (length firsts.old) (length seconds.old))
        kinds.old firsts.old seconds.old result kinds.new firsts.new seconds.new }
{
    match job_build::build(fitted, fittings, sheet, kinds, firsts, seconds) {
        Ok(built) => BuildReport {
            number: 0,
            sheet: 0,
            place: 0,
            leaves: built.leaves,
            nodes: built.nodes,
            rounds: built.rounds,
            height: built.height,
        },
        Err(Refusal::Refused(fault)) => {
            let number = fault.reason.number();
            BuildReport {
                number,
                sheet: sheet_of(number),
                place: fault.place,
                leaves: 0,
                nodes: 0,
                rounds: 0,
                height: 0,
            }
        }
        Err(Refusal::Unfit(fault)) => BuildReport {
            number: fault.reason.number(),
            sheet: 1,
            place: fault.place,
            leaves: 0,
            nodes: 0,
            rounds: 0,
            height: 0,
        },
    }
}

// What is reported of a run's answer.
fn run_report(answer: Result<usize, Refusal>) -> RunReport
    ensures { result ≡ run_report (answered answer) }
{
    match answer {
        Ok(nodes) => RunReport {
            number: 0,
            sheet: 0,
            place: 0,
            nodes,
        },
        Err(Refusal::Refused(fault)) => {
            let number = fault.reason.number();
            RunReport {
                number,
                sheet: sheet_of(number),
                place: fault.place,
                nodes: 0,
            }
        }
        Err(Refusal::Unfit(fault)) => RunReport {
            number: fault.reason.number(),
            sheet: 1,
            place: fault.place,
            nodes: 0,
        },
    }
}

// Runs toggles on the sheets' tree.
#[unsafe(no_mangle)]
pub extern "C" fn kressedach_run(
    fitted: bool,
    fittings: &[u8],
    sheet: &[u8],
    toggles: &[u16],
    roots: &mut [u8],
    counts: &mut [u32],
    labels: &mut [u8],
) -> RunReport
    ensures { RunReported (running (sheets_of fitted fittings.now sheet.now) toggles.now (length roots.old) (length counts.old) (length labels.old))
        roots.old counts.old labels.old result roots.new counts.new labels.new }
{
    run_report(job_run::run(fitted, fittings, sheet, toggles, roots, counts, labels))
}

// Runs toggles on the sheets' tree, and edits between them.
#[unsafe(no_mangle)]
pub extern "C" fn kressedach_run_edited(
    fitted: bool,
    fittings: &[u8],
    sheet: &[u8],
    toggles: &[u16],
    moments: &[u64],
    positions: &[u16],
    codes: &[u16],
    roots: &mut [u8],
    counts: &mut [u32],
    labels: &mut [u8],
    edit_counts: &mut [u32],
) -> RunReport
    ensures { EditReported (running_edited (sheets_of fitted fittings.now sheet.now) toggles.now moments.now positions.now codes.now
        (edit_lists roots.old counts.old labels.old edit_counts.old))
        (edit_lists roots.old counts.old labels.old edit_counts.old) result
        (edit_lists roots.new counts.new labels.new edit_counts.new) }
{
    let edits = EditLists {
        moments,
        positions,
        codes,
    };
    run_report(job_edit::run_edited(
        fitted,
        fittings,
        sheet,
        toggles,
        edits,
        roots,
        counts,
        labels,
        edit_counts,
    ))
}

// Runs the toggles of two foundries on the sheets' tree.
#[unsafe(no_mangle)]
pub extern "C" fn kressedach_run_both(
    fitted: bool,
    fittings: &[u8],
    sheet: &[u8],
    order: &[u8],
    first: &[u16],
    second: &[u16],
    first_roots: &mut [u8],
    first_counts: &mut [u32],
    first_labels: &mut [u8],
    second_roots: &mut [u8],
    second_counts: &mut [u32],
    second_labels: &mut [u8],
) -> BothReport
    ensures { BothReported (sheets_of fitted fittings.now sheet.now) order.now first.now second.now
        (lists first_roots.old first_counts.old first_labels.old) (lists second_roots.old second_counts.old second_labels.old) result
        (lists first_roots.new first_counts.new first_labels.new) (lists second_roots.new second_counts.new second_labels.new) }
{
    let both = job_both::run_both(
        fitted,
        fittings,
        sheet,
        order,
        first,
        second,
        first_roots,
        first_counts,
        first_labels,
        second_roots,
        second_counts,
        second_labels,
    );
    let to_first = both.first;
    let to_second = both.second;
    BothReport {
        first: run_report(to_first),
        second: run_report(to_second),
    }
}

// What is reported of the walls.
fn classify_report(answer: Result<usize, Refusal>) -> ClassifyReport
    ensures { result ≡ classify_report (answered answer) }
{
    match answer {
        Ok(walls) => ClassifyReport {
            number: 0,
            sheet: 0,
            place: 0,
            walls,
        },
        Err(Refusal::Refused(fault)) => {
            let number = fault.reason.number();
            ClassifyReport {
                number,
                sheet: sheet_of(number),
                place: fault.place,
                walls: 0,
            }
        }
        Err(Refusal::Unfit(fault)) => ClassifyReport {
            number: fault.reason.number(),
            sheet: 1,
            place: fault.place,
            walls: 0,
        },
    }
}

// Classifies lines against the sheets' formula.
#[unsafe(no_mangle)]
pub extern "C" fn kressedach_classify(
    fitted: bool,
    fittings: &[u8],
    sheet: &[u8],
    rows: &[u8],
    lines: &[u32],
    positions: &[i32],
    shapes: &[u16],
    wall_lines: &mut [u32],
    starts: &mut [i32],
    ends: &mut [i32],
    start_shapes: &mut [u16],
    end_shapes: &mut [u16],
) -> ClassifyReport
    ensures { ClassifyReported (classifying (sheets_of fitted fittings.now sheet.now) (line_lists rows.now lines.now positions.now shapes.now) (answer_lists wall_lines.old starts.old ends.old start_shapes.old end_shapes.old))
        (answer_lists wall_lines.old starts.old ends.old start_shapes.old end_shapes.old) result (answer_lists wall_lines.new starts.new ends.new start_shapes.new end_shapes.new) }
{
    let x = Crossings {
        line: lines,
        at: positions,
        shape: shapes,
    };
    let mut walls = WallLists {
        lines: wall_lines,
        starts,
        ends,
        start_shapes,
        end_shapes,
    };
    classify_report(job_classify::classify(fitted, fittings, sheet, rows, x, &mut walls))
}

// What is reported of the opinion on a list of so many entries.
fn judge_report(count: usize, answer: Result<Opinion, Refusal>) -> JudgeReport
    ensures { result ≡ judge_report count (judged_of answer) }
{
    match answer {
        Ok(Opinion::Right) => JudgeReport {
            number: 0,
            sheet: 0,
            right: true,
            place: 0,
            index: count,
        },
        Ok(Opinion::Wrong(index)) => JudgeReport {
            number: 0,
            sheet: 0,
            right: false,
            place: 0,
            index,
        },
        Err(Refusal::Refused(fault)) => {
            let number = fault.reason.number();
            JudgeReport {
                number,
                sheet: sheet_of(number),
                right: false,
                place: fault.place,
                index: 0,
            }
        }
        Err(Refusal::Unfit(fault)) => JudgeReport {
            number: fault.reason.number(),
            sheet: 1,
            right: false,
            place: fault.place,
            index: 0,
        },
    }
}

// Judges another ray caster's wall list.
#[unsafe(no_mangle)]
pub extern "C" fn kressedach_judge(
    fitted: bool,
    fittings: &[u8],
    sheet: &[u8],
    rows: &[u8],
    lines: &[u32],
    positions: &[i32],
    shapes: &[u16],
    their_lines: &[u32],
    their_starts: &[i32],
    their_ends: &[i32],
) -> JudgeReport
    ensures { result ≡ judge_report (length their_lines.now) (judging (sheets_of fitted fittings.now sheet.now) (line_lists rows.now lines.now positions.now shapes.now) (their_lists their_lines.now their_starts.now their_ends.now)) }
{
    let x = Crossings {
        line: lines,
        at: positions,
        shape: shapes,
    };
    let answer = job_judge::judge(
        fitted,
        fittings,
        sheet,
        rows,
        x,
        their_lines,
        their_starts,
        their_ends,
    );
    judge_report(their_lines.len(), answer)
}

fn cross_report(answer: Result<cross_answer::Counts, Fault>) -> CrossReport
    ensures { result ≡ cross_report (judged answer) }
{
    match answer {
        Ok(counts) => CrossReport {
            number: 0,
            place: 0,
            shapes: counts.shapes,
            crossings: counts.crossings,
        },
        Err(wrong) => CrossReport {
            number: wrong.reason.number(),
            place: wrong.place,
            shapes: 0,
            crossings: 0,
        },
    }
}

// Crosses half-spaces and boxes with one line, from the drawing's own numbers.
#[unsafe(no_mangle)]
pub extern "C" fn kressedach_cross(
    ox: f64,
    oy: f64,
    oz: f64,
    dx: f64,
    dy: f64,
    dz: f64,
    kinds: &[u8],
    numbers: &[f64],
    starts: &mut [u8],
    positions: &mut [i32],
    shapes: &mut [u16],
) -> CrossReport
    ensures { CrossReported (crossing_shapes (probe_of ox oy oz dx dy dz) kinds.now numbers.now (length starts.old) (length positions.old) (length shapes.old))
        (made_lists starts.old positions.old shapes.old) result (made_lists starts.new positions.new shapes.new) }
{
    let probe = Probe {
        ox,
        oy,
        oz,
        dx,
        dy,
        dz,
    };
    let drawing = Drawing { kinds, numbers };
    cross_report(cross_line::cross(probe, drawing, starts, positions, shapes))
}

// Crosses balls with one line, which is parallel to an axis.
#[unsafe(no_mangle)]
pub extern "C" fn kressedach_cross_balls(
    numbers: &[i32],
    starts: &mut [u8],
    positions: &mut [i32],
    shapes: &mut [u16],
) -> CrossReport
    ensures { CrossReported (crossing_balls numbers.now (length starts.old) (length positions.old) (length shapes.old))
        (made_lists starts.old positions.old shapes.old) result (made_lists starts.new positions.new shapes.new) }
{
    cross_report(cross_line::cross_balls(numbers, starts, positions, shapes))
}

fn cross_many_report(answer: Result<cross_many::Counts, LineFault>) -> CrossManyReport
    ensures { result ≡ cross_many_report (many_of answer) }
{
    match answer {
        Ok(counts) => CrossManyReport {
            number: 0,
            place: 0,
            line: 0,
            lines: counts.lines,
            crossings: counts.crossings,
        },
        Err(wrong) => CrossManyReport {
            number: wrong.fault.reason.number(),
            place: wrong.fault.place,
            line: wrong.line,
            lines: 0,
            crossings: 0,
        },
    }
}

// Crosses half-spaces and boxes with many lines, from the drawing's own numbers.
#[unsafe(no_mangle)]
pub extern "C" fn kressedach_cross_many(
    kinds: &[u8],
    numbers: &[f64],
    lines: &[f64],
    rows: &mut [u8],
    line_numbers: &mut [u32],
    positions: &mut [i32],
    shapes: &mut [u16],
) -> CrossManyReport
    ensures { CrossManyReported (crossing_many kinds.now numbers.now lines.now (line_lists rows.old line_numbers.old positions.old shapes.old))
        (line_lists rows.old line_numbers.old positions.old shapes.old) result (line_lists rows.new line_numbers.new positions.new shapes.new) }
{
    let drawing = Drawing { kinds, numbers };
    cross_many_report(cross_many::cross(drawing, lines, rows, line_numbers, positions, shapes))
}
