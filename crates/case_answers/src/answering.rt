// A case's job, called on what the case gives, and its answer printed.
use crate::printing::{counted, refused, show};
use case_lines::case::{Case, Job};
use case_lines::lists::{LENT, Lists};
use line_lists::Crossings;
use line_writing::lists::WallLists;
use outcome::Refusal;
use std::io;
use tree_dwarf::Figures;

#[derive(Clone, Copy)]
struct Sheets<'a> {
    fittings: Option<&'a [u8]>,
    customers: &'a [u8],
}

impl<'a> Sheets<'a> {
    fn beside(self) -> &'a [u8] {
        self.fittings.unwrap_or(b"")
    }
}

// The first entries of an answer list, and all of them where more are asked for.
fn lend<T>(list: &mut [T], n: usize) -> &mut [T] {
    let k = n.min(list.len());
    &mut list[..k]
}

// Names, leaves, the formula's first offset and the one past its end.
fn read(rt: &impl Print, sheets: Sheets<'_>) -> io::Result<()> {
    match sheet_reading::read_sheets(sheets.fittings.is_some(), sheets.beside(), sheets.customers) {
        Ok(read) => {
            let (names, leaves, first, past) = (read.names, read.leaves, read.first, read.past);
            print!(rt; " read {names} {leaves} {first} {past}")
        }
        Err(why) => refused(rt, why),
    }
}

// Leaves, dwarf nodes, rounds and height; how many nodes.
fn built(rt: &impl Print, answer: Result<Figures, Refusal>) -> io::Result<usize> {
    match answer {
        Ok(tree) => {
            let (leaves, nodes, rounds, height) = (
                tree.leaves,
                tree.nodes,
                tree.rounds,
                tree.height,
            );
            print!(rt; " built {leaves} {nodes} {rounds} {height}")?;
            Ok(nodes)
        }
        Err(why) => {
            refused(rt, why)?;
            Ok(0)
        }
    }
}

fn build(rt: &impl Print, sheets: Sheets<'_>, lists: &Lists) -> io::Result<()> {
    let mut kinds = [99u16; LENT];
    let mut firsts = [99u16; LENT];
    let mut seconds = [99u16; LENT];
    let answer = job_build::build(
        sheets.fittings.is_some(),
        sheets.beside(),
        sheets.customers,
        lend(&mut kinds, lists.room(0)),
        lend(&mut firsts, lists.room(1)),
        lend(&mut seconds, lists.room(2)),
    );
    let nodes = built(rt, answer)?;
    show(rt, "kinds", &kinds, nodes)?;
    show(rt, "firsts", &firsts, nodes)?;
    show(rt, "seconds", &seconds, nodes)
}

fn run(rt: &impl Print, sheets: Sheets<'_>, lists: &Lists) -> io::Result<()> {
    let toggles = lists.shapes.as_slice();
    let mut roots = [99u8; LENT];
    let mut counts = [99u32; LENT];
    let mut labels = [99u8; LENT];
    let answer = job_run::run(
        sheets.fittings.is_some(),
        sheets.beside(),
        sheets.customers,
        toggles,
        lend(&mut roots, lists.room(0)),
        lend(&mut counts, lists.room(1)),
        lend(&mut labels, lists.room(2)),
    );
    let nodes = counted(rt, "ran", answer)?;
    let given = if nodes == 0 { 0 } else { toggles.len() };
    show(rt, "roots", &roots, given)?;
    show(rt, "counts", &counts, given)?;
    show(rt, "labels", &labels, nodes)
}

fn classify(rt: &impl Print, sheets: Sheets<'_>, lists: &Lists) -> io::Result<()> {
    let mut lines = [99u32; LENT];
    let mut starts = [99i32; LENT];
    let mut ends = [99i32; LENT];
    let mut start_shapes = [99u16; LENT];
    let mut end_shapes = [99u16; LENT];
    let crossings = Crossings {
        line: lists.lines.as_slice(),
        at: lists.positions.as_slice(),
        shape: lists.shapes.as_slice(),
    };
    let mut lent = WallLists {
        lines: lend(&mut lines, lists.room(0)),
        starts: lend(&mut starts, lists.room(1)),
        ends: lend(&mut ends, lists.room(2)),
        start_shapes: lend(&mut start_shapes, lists.room(3)),
        end_shapes: lend(&mut end_shapes, lists.room(4)),
    };
    let answer = job_classify::classify(
        sheets.fittings.is_some(),
        sheets.beside(),
        sheets.customers,
        lists.rows.as_slice(),
        crossings,
        &mut lent,
    );
    let walls = counted(rt, "walls", answer)?;
    show(rt, "lines", &lines, walls)?;
    show(rt, "starts", &starts, walls)?;
    show(rt, "ends", &ends, walls)?;
    show(rt, "start shapes", &start_shapes, walls)?;
    show(rt, "end shapes", &end_shapes, walls)
}

pub fn answer(rt: &impl Print, case: &Case) -> io::Result<()> {
    let sheets = Sheets {
        fittings: case.sheet.fittings(),
        customers: case.sheet.customers(),
    };
    match case.job {
        Job::Read => read(rt, sheets),
        Job::Build => build(rt, sheets, &case.lists),
        Job::Run => run(rt, sheets, &case.lists),
        Job::Classify => classify(rt, sheets, &case.lists),
    }
}
