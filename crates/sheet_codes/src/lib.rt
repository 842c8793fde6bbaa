// A formula's codes: judged left to right, and put into an array.
#![tactic(auto)]

ghost use Rattle.std.specs.Prelude.{◌≡◌, ◌+◌, ◌<◌, ◌%◌, ◌^◌, length};
ghost use Rattle.outcome.specs.Outcome.{part};
ghost use Rattle.outcome.specs.Refusing.{judged};
ghost use Rattle.formula.specs.Formula.{leaves as leaves_of};
ghost use Rattle.formula.specs.Codes.{is_operation};
ghost use Rattle.sheet.specs.Sheet.{codes_of, formula_of};
ghost use Rattle.sheet_codes.specs.Codes.{CodesFit, CodesStand};

use contraction::CODES;
use outcome::{Fault, Reason, need};

// Is a code an operation's?
pub fn is_operation(code: usize) -> bool
    ensures { result ≡ is_operation code }
{
    0xFFF0 <= code && code <= 0xFFF3
}

// Judges a formula's codes, the first of which stands at offset `first` of the sheet and its tag at `tag`, and answers how many leaves it has.
pub fn judge(codes: &[u8], names: usize, tag: usize, first: usize) -> Result<usize, Fault>
    requires { (length codes.now % 2 ≡ 0) × (first + length codes.now < 2 ^ 64) }
    ensures { judged result ≡ part leaves_of (formula_of names tag first (codes_of codes.now)) }
{
    let mut waiting: usize = 0;
    let mut leaves: usize = 0;
    for i in 0..codes.len() / 2 {
        let code = sheet::two(codes, 2 * i);
        if code < names {
            waiting += 1;
            leaves += 1;
            continue;
        }
        need(is_operation(code), Reason::FormulaWrong, first + 2 * i)?;
        need(2 <= waiting, Reason::FormulaWrong, first + 2 * i)?;
        waiting -= 1;
    }
    need(waiting == 1, Reason::FormulaWrong, tag)?;
    Ok(leaves)
}

// Puts the codes of a formula's bytes into an array, and answers how many they are.
pub fn fill_codes(formula: &[u8], codes: &mut [u16; CODES]) -> usize
    requires { CodesFit formula.now codes.old }
    ensures { CodesStand (codes_of formula.now) codes.new result }
{
    let n = formula.len() / 2;
    for i in 0..n {
        codes[i] = sheet::two(formula, 2 * i) as u16;
    }
    n
}
