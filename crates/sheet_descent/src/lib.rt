// The formula of edition 2, operation first, read by recursive descent: document 02, K10. Its codes are put into an array in postfix order.
#![tactic(auto)]

ghost use Rattle.std.specs.Prelude.{◌≡◌, ◌+◌, ◌-◌, ◌/◌, ◌^◌, ◌≤◌, ◌<◌, ◌||◌, ltb, length, IfSome};
ghost use Rattle.outcome.specs.Outcome.{part};
ghost use Rattle.outcome.specs.Refusing.{judged};
ghost use Rattle.formula.specs.Formula.{leaves as leaves_of};
ghost use Rattle.formula.specs.Codes.{is_operation};
ghost use Rattle.sheet.specs.Sheet.{codes_of, formula_first, formula_in};
ghost use Rattle.sheet_codes.specs.Codes.{CodesStand};
ghost use Rattle.sheet_descent.specs.Descent.{Room, Descended, short_at, FirstFits, GoodFirst, GoodIn, in_postfix};

use contraction::CODES;
use outcome::{Fault, Reason, need};

// How many codes stand in the array after those from one offset up to another were put after the first `count`.
fn codes_up_to(count: usize, from: usize, to: usize) -> usize
    requires { (from ≤ to) × (count + to < 2 ^ 64) }
    ensures { result ≡ count + (to - from) / 2 }
{
    count + (to - from) / 2
}

// Reads the whole formula at offset `at`, puts its codes into the array after the first `count`, and answers the offset past it; none where a
// code is unknown or the codes left are too few for the formulas to come. The formula has to end by `past`, since each one that is to come
// after it takes a code at least: so no descent is deeper than what can be completed. Each operand is a whole formula of the same kind; the
// bytes left fall.
fn descend(
    formula: &[u8],
    names: usize,
    at: usize,
    past: usize,
    codes: &mut [u16; CODES],
    count: usize,
) -> Option<usize>
    requires { Room names formula.now codes.old at past count }
    ensures bounds { IfSome result (λ next. (at + 2 ≤ next) × (next ≤ length formula.now)) }
    ensures descended { Descended names formula.now at past codes.old codes.new count result }
{
    if past <= at {
        return None;
    }
    let code = sheet::two(formula, at);
    if code < names {
        codes[count] = code as u16;
        return Some(at + 2);
    }
    if !sheet_codes::is_operation(code) {
        return None;
    }
    let mid = descend(formula, names, at + 2, past - 2, codes, count)?;
    let left = codes_up_to(count, at + 2, mid);
    let next = descend(formula, names, mid, past, codes, left)?;
    let both = codes_up_to(left, mid, next);
    codes[both] = code as u16;
    Some(next)
}

// Is a code a name's or an operation's?
fn is_known(code: usize, names: usize) -> bool
    ensures { result ≡ (ltb code names || is_operation code) }
{
    code < names || sheet_codes::is_operation(code)
}

// The offset of the first unknown code, or the tag's where there is none.
fn short_at(formula: &[u8], names: usize, tag: usize, first: usize) -> usize
    requires { FirstFits names first formula.now }
    ensures { result ≡ short_at names tag first (codes_of formula.now) }
{
    for i in 0..formula.len() / 2 {
        if !is_known(sheet::two(formula, 2 * i), names) {
            return first + 2 * i;
        }
    }
    tag
}

// Judges a formula's codes, operation first, the first of which stands at offset `first` of the sheet and its tag at `tag`, and answers how
// many leaves it has.
pub fn judge_first(formula: &[u8], names: usize, tag: usize, first: usize) -> Result<usize, Fault>
    requires { FirstFits names first formula.now }
    ensures { judged result ≡ part leaves_of (formula_first names tag first (codes_of formula.now)) }
{
    let mut codes = [0; CODES];
    match descend(formula, names, 0, formula.len(), &mut codes, 0) {
        Some(end) => {
            need(formula.len() <= end, Reason::FormulaWrong, first + end)?;
            Ok((end / 2 + 1) / 2)
        }
        None => Err(Reason::FormulaWrong.at(short_at(formula, names, tag, first))),
    }
}

// Puts the codes of a good formula, operation first, into an array in postfix order, and answers how many they are.
fn fill_first(formula: &[u8], names: usize, codes: &mut [u16; CODES]) -> usize
    requires { GoodFirst names formula.now codes.old }
    ensures { CodesStand (in_postfix (formula_first names 0 0 (codes_of formula.now))) codes.new result }
{
    match descend(formula, names, 0, formula.len(), codes, 0) {
        Some(end) => end / 2,
        // no descent over a good formula ends early
        None => 0,
    }
}

// Puts the codes of a good formula in an edition's order into an array in postfix order, and answers how many they are.
pub fn fill_codes(edition: u8, formula: &[u8], names: usize, codes: &mut [u16; CODES]) -> usize
    requires { GoodIn edition names formula.now codes.old }
    ensures { CodesStand (in_postfix (formula_in edition names 0 0 (codes_of formula.now))) codes.new result }
{
    if edition == 1 {
        sheet_codes::fill_codes(formula, codes)
    } else {
        fill_first(formula, names, codes)
    }
}
