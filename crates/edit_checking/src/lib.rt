// The judgement of edits, one by one: the first that does not fit.
#![tactic(auto)]

ghost use Rattle.std.specs.Prelude.{◌≡◌, length, eqb, IsOk};
ghost use Rattle.outcome.specs.Outcome.{need};
ghost use Rattle.outcome.specs.Refusing.{judged};
ghost use Rattle.formula.specs.Codes.{is_operation};
ghost use Rattle.edit_checking.specs.Fits.{operates_at, in_time, fits as fits_in, first_unfit};
ghost use Rattle.edit_checking.specs.Asked.{Equal};

use edits::{EditLists, FIRST_OPERATION, LAST_OPERATION};
use outcome::{Fault, Reason, need};

// Whether a code is an operation's.
fn is_operation(c: u16) -> bool
    ensures { result ≡ is_operation c }
{
    FIRST_OPERATION <= c && c <= LAST_OPERATION
}

// Whether an operation stands at position p of these codes.
fn operates(formula: &[u16], p: u16) -> bool
    ensures { result ≡ operates_at formula.now p }
{
    is_operation(formula.get(usize::from(p)).copied().unwrap_or(0))
}

// Whether a moment comes in time, where `before` is the one before it.
fn in_time(most: u64, before: u64, m: u64) -> bool
    ensures { result ≡ in_time most before m }
{
    before <= m && m <= most
}

// Whether an edit fits.
fn fits(formula: &[u16], most: u64, before: u64, m: u64, p: u16, c: u16) -> bool
    ensures { result ≡ fits_in formula.now most before m p c }
{
    operates(formula, p) && is_operation(c) && in_time(most, before, m)
}

// The index of the first edit that does not fit a formula of these codes; the number of edits where there is none.
pub fn first_unfit(formula: &[u16], most: u64, edits: EditLists<'_>) -> usize
    requires { Equal edits.moments.now edits.positions.now edits.codes.now }
    ensures { let e = edits.entry in result ≡ first_unfit formula.now most 0 e.moments.now e.positions.now e.codes.now }
{
    let mut before: u64 = 0;
    for (i, &m) in edits.moments.iter().enumerate() {
        if !fits(formula, most, before, m, edits.positions[i], edits.codes[i]) {
            return i;
        }
        before = m;
    }
    edits.moments.len()
}

// 20 at the first edit that does not fit.
pub fn all_fit(formula: &[u16], most: u64, edits: EditLists<'_>) -> Result<(), Fault>
    requires { Equal edits.moments.now edits.positions.now edits.codes.now }
    ensures asked { let e = edits.entry in let first = first_unfit formula.now most 0 e.moments.now e.positions.now e.codes.now in
        judged result ≡ need (eqb first (length e.moments.now)) 20 first }
    ensures so { let e = edits.entry in IsOk result → first_unfit formula.now most 0 e.moments.now e.positions.now e.codes.now ≡ length e.moments.now }
{
    let first = first_unfit(formula, most, edits);
    need(first == edits.moments.len(), Reason::EditWrong, first)
}
