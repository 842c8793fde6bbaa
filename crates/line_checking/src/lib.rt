// Judges start rows and crossing lists, and the room in the answer lists: refusals 13, 14, 10, 15, 11 and 9.
#![tactic(auto)]

ghost use Rattle.std.specs.Prelude.{◌≡◌, ◌<◌, ◌||◌, Ok, true, leb, pos, get_or, length};
ghost use Rattle.outcome.specs.Refusing.{judged};
ghost use Rattle.lines.specs.Lines.{line_lists, rowed, roomy};
ghost use Rattle.line_lists.specs.Greatest.{Greatest};
ghost use Rattle.line_checking.specs.Verdicts.{verdict, InAir, Judged};
ghost use Rattle.line_checking.specs.Items.{at_mark, falls_at, asked_at, ordered_from, Later, NoneStray, AllFine};

use line_lists::Crossings;
use outcome::{Fault, Reason, need};

const MOST_ROWS: usize = 4_294_967_296;

// The crossings of lists that have one length, and what they are asked by.
#[derive(Clone, Copy, Drop)]
struct Items<'a> {
    names: usize,
    rows: usize,
    line: &'a [u32],
    at: &'a [i32],
    shape: &'a [u16],
    ghost positions: { length at.now ≡ length line.now },
    ghost shapes: { length shape.now ≡ length line.now },
}

fn at_mark(p: i32) -> bool
    ensures { result ≡ at_mark p }
{
    p <= i32::MIN || i32::MAX <= p
}

// The item at i, not the first, falls behind the one before it. No branch: then many items are looked at at once.
#[tactic(auto, using(crate::proofs::ItemLaws::falls_by))]
fn falls_behind(line: &[u32], at: &[i32], i: usize) -> bool
    requires { Later line.now at.now i }
    ensures { result ≡ falls_at line.now at.now i }
{
    let same = line[i] == line[i - 1];
    let down = at[i] < at[i - 1];
    (line[i] < line[i - 1]) | (same & down)
}

// Some item but the first falls or is at an end mark. No way out before the end, for the same reason.
#[tactic(auto, using(crate::proofs::ItemLaws::none_yet, crate::proofs::ItemLaws::none_more))]
fn strays(line: &[u32], at: &[i32]) -> bool
    requires { length at.now ≡ length line.now }
    ensures { NoneStray line.now at.now (length line.now) result }
{
    let mut found = false;
    for i in 1..line.len() {
        found |= falls_behind(line, at, i) | at_mark(at[i]);
    }
    found
}

impl Items<'_> {
    // The item at i is at an end mark, or on a line with no row.
    fn astray(self, i: usize) -> bool
        requires { i < length self.line.now }
        ensures { result ≡ (at_mark (get_or self.entry.at.now i (pos 0)) || leb self.entry.rows (get_or self.entry.line.now i 0)) }
    {
        at_mark(self.at[i]) || self.rows <= self.line[i] as usize
    }

    // The item at i falls behind the one before it.
    #[tactic(auto, using(crate::proofs::ItemLaws::falls_first))]
    fn falls(self, i: usize) -> bool
        requires { i < length self.line.now }
        ensures { result ≡ falls_at self.entry.line.now self.entry.at.now i }
    {
        i != 0 && falls_behind(self.line, self.at, i)
    }

    // 10, 15 and 11 of the item at i.
    #[tactic(auto, unfolding(crate::specs::Items::asked_at))]
    fn asked(self, i: usize) -> Result<(), Fault>
        requires { i < length self.line.now }
        ensures { judged result ≡ asked_at self.entry.names self.entry.rows self.entry.line.now self.entry.at.now self.entry.shape.now i }
    {
        let named = usize::from(self.shape[i]) < self.names;
        need(named, Reason::NoSuchShape, i)?;
        need(!self.astray(i), Reason::Astray, i)?;
        need(!self.falls(i), Reason::Falls, i)
    }

    // Item by item: the first reason met.
    #[tactic(auto, using(crate::proofs::OrderLaws::fine_none, crate::proofs::OrderLaws::fine_more, crate::proofs::OrderLaws::fine_wrong, crate::proofs::OrderLaws::fine_all))]
    fn first_wrong(self) -> Result<(), Fault>
        ensures { judged result ≡ ordered_from self.entry.names self.entry.rows self.entry.line.now self.entry.at.now self.entry.shape.now 0 }
    {
        for i in 0..self.line.len() {
            self.asked(i)?;
        }
        Ok(())
    }

    #[tactic(auto, using(line_lists::proofs::GreatestLaws::greatest_fold))]
    fn greatest_shape(self) -> u16
        ensures { Greatest self.entry.shape.now (length self.entry.shape.now) result }
    {
        self.shape.iter().fold(0, |most, &s| most.max(s))
    }

    // Nothing is wrong with any item. A no may be wrong: then they are asked one by one.
    #[tactic(auto, using(crate::proofs::OrderLaws::all_fine_not, crate::proofs::OrderLaws::all_fine_by))]
    fn all_fine(self) -> bool
        requires { 0 < length self.line.now }
        ensures { AllFine self.entry.names self.entry.rows self.entry.line.now self.entry.at.now self.entry.shape.now result }
    {
        let last = self.line[self.line.len() - 1] as usize;
        !at_mark(self.at[0])
            && last < self.rows
            && usize::from(self.greatest_shape()) < self.names
            && !strays(self.line, self.at)
    }

    // 10, 15 and 11 over all items. Where the first is wrong the others are not looked at.
    fn judge(self) -> Result<(), Fault>
        ensures { judged result ≡ ordered_from self.entry.names self.entry.rows self.entry.line.now self.entry.at.now self.entry.shape.now 0 }
    {
        if !self.line.is_empty() && self.asked(0).is_ok() && self.all_fine() {
            return Ok(());
        }
        self.first_wrong()
    }
}

// 14, and whether every line starts in air.
#[tactic(auto, using(line_lists::proofs::GreatestLaws::greatest_fold, crate::proofs::JudgeLaws::bits_by, crate::proofs::JudgeLaws::air_by))]
fn judge_rows(names: usize, rows: &[u8]) -> Result<bool, Fault>
    requires { 0 < names }
    ensures is { verdict result ≡ rowed names rows.now }
    ensures air { result ≡ Ok true → InAir rows.now }
{
    need(rows.len() % names == 0, Reason::RowsWrong, 0)?;
    need(rows.len() / names <= MOST_ROWS, Reason::RowsWrong, 0)?;
    let most = rows.iter().fold(0, |most, &b| most.max(b));
    need(most <= 1, Reason::RowsWrong, 0)?;
    Ok(most == 0)
}

// Start rows and crossing lists: 13, then 14, then 10, 15 and 11; and whether every line starts in air.
#[tactic(auto, unfolding(crate::specs::Items::ordered_from, lines::specs::Lines::judged))]
pub fn judge(names: usize, rows: &[u8], crossings: Crossings<'_>) -> Result<bool, Fault>
    requires { 0 < names }
    ensures { Judged names (line_lists rows.now crossings.entry.line.now crossings.entry.at.now crossings.entry.shape.now) result }
{
    let Crossings { line, at, shape } = crossings;
    need(at.len() == line.len(), Reason::LengthsDiffer, 0)?;
    need(shape.len() == line.len(), Reason::LengthsDiffer, 0)?;
    let air = judge_rows(names, rows)?;
    let items = Items {
        names,
        rows: rows.len() / names,
        line,
        at,
        shape,
    };
    items.judge()?;
    Ok(air)
}

// 9: the answer lists line, start, end, start shape, end shape, of which each needs n entries.
pub fn room(
    n: usize,
    lines: usize,
    starts: usize,
    ends: usize,
    start_shapes: usize,
    end_shapes: usize,
) -> Result<(), Fault>
    ensures { judged result ≡ roomy n lines starts ends start_shapes end_shapes }
{
    outcome::room(n, lines)?;
    outcome::room(n, starts)?;
    outcome::room(n, ends)?;
    outcome::room(n, start_shapes)?;
    outcome::room(n, end_shapes)
}
