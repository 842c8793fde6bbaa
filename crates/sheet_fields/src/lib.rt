// One field of a sheet judged, question by question: document 01, 'Order of reading', and document 02, K10.
#![tactic(auto)]

ghost use Rattle.std.specs.Prelude.{◌≡◌, ◌+◌, ◌%◌, ◌^◌, ◌<◌, ◌≤◌, false, true, length};
ghost use Rattle.outcome.specs.Outcome.{part};
ghost use Rattle.outcome.specs.Refusing.{judged};
ghost use Rattle.formula.specs.Formula.{leaves as leaves_of};
ghost use Rattle.sheet.specs.Sheet.{codes_of, formula_in, header as header_of, name_at, formula_at, field_at, fitting_at};
ghost use Rattle.sheet.specs.Walk.{walk_names, fitted_by};
ghost use Rattle.sheet_names.specs.Keys.{NamesRead};
ghost use Rattle.sheet_fields.specs.Fields.{seen, shown, end_at};

use outcome::{Fault, Reason, need};
use sheet::{FORMULA_BYTES, NAME_BYTES, NAMES};
use sheet_names::Whose;

// What one field is: a name or the formula, with the offset of its first byte and the one past its last; or the end. A name comes with its
// key, so that it is worked out once.
#[derive(Clone, Copy, Debug, PartialEq, Eq)]
pub enum Field {
    Name {
        first: usize,
        past: usize,
        key: u32,
    },
    Formula {
        first: usize,
        past: usize,
        leaves: usize,
    },
    End,
}

// A name, its tag 2 at offset `at`, after `fitted` names of the fittings sheet and `names` of this one.
#[tactic(auto, using(sheet::proofs::Names::walk_length), unfolding(sheet::specs::Sheet::name_at, sheet::specs::Sheet::length_at, sheet::specs::Sheet::past_at, sheet::specs::Sheet::bytes_at))]
fn name_field(
    fittings: &[u8],
    fitted: usize,
    sheet: &[u8],
    at: usize,
    names: usize,
    keys: &[u32; NAMES],
) -> Result<Field, Fault>
    requires { NamesRead fittings.now fitted sheet.now names keys.now × (at < length sheet.now) }
    ensures { part (shown sheet.now) (judged result) ≡ part seen (name_at (fitted_by 1 fittings.now fitted) sheet.now at (walk_names sheet.now 5 names)) }
{
    need(fitted + names < NAMES, Reason::TooLarge, at)?;
    need(at + 3 <= sheet.len(), Reason::EndsTooSoon, sheet.len())?;
    let n = sheet::two(sheet, at + 1);
    need(1 <= n, Reason::NameWrong, at)?;
    need(n <= NAME_BYTES, Reason::NameWrong, at)?;
    let first = at + 3;
    let past = first + n;
    need(past <= sheet.len(), Reason::EndsTooSoon, sheet.len())?;
    let name = &sheet[first..past];
    need(sheet_names::good_bytes(name), Reason::NameWrong, at)?;
    let key = sheet_names::key(name);
    let whose = sheet_names::taken(fittings, fitted, sheet, names, keys, name, key);
    need(whose != Whose::Customers, Reason::NameTaken, at)?;
    need(whose != Whose::Fittings, Reason::FittingsName, at)?;
    Ok(Field::Name { first, past, key })
}

// Judges a formula's codes in an edition's order, the first of which stands at offset `first` of the sheet and its tag at `tag`, and answers
// how many leaves it has.
#[tactic(auto, unfolding(sheet::specs::Sheet::formula_in))]
fn judge(
    edition: usize,
    formula: &[u8],
    names: usize,
    tag: usize,
    first: usize,
) -> Result<usize, Fault>
    requires { (names ≤ 256) × (length formula.now ≤ 4094) × (length formula.now % 2 ≡ 0) × (first + length formula.now < 2 ^ 64) }
    ensures { judged result ≡ part leaves_of (formula_in edition names tag first (codes_of formula.now)) }
{
    if edition == 1 {
        sheet_codes::judge(formula, names, tag, first)
    } else {
        sheet_descent::judge_first(formula, names, tag, first)
    }
}

// The formula, its edition's tag at offset `at`, after `fitted` names of the fittings sheet and `names` of this one.
#[tactic(auto, using(sheet::proofs::Names::walk_length), unfolding(sheet::specs::Sheet::formula_at, sheet::specs::Sheet::length_at, sheet::specs::Sheet::past_at, sheet::specs::Sheet::bytes_at))]
fn formula_field(
    edition: usize,
    fittings: &[u8],
    fitted: usize,
    sheet: &[u8],
    at: usize,
    names: usize,
) -> Result<Field, Fault>
    requires { (at < length sheet.now) × (fitted + names ≤ 256) }
    ensures { part (shown sheet.now) (judged result) ≡ part seen (formula_at (fitted_by edition fittings.now fitted) sheet.now at (walk_names sheet.now 5 names)) }
{
    need(0 < names, Reason::TagOutOfPlace, at)?;
    need(at + 3 <= sheet.len(), Reason::EndsTooSoon, sheet.len())?;
    let n = sheet::two(sheet, at + 1);
    need(n <= FORMULA_BYTES, Reason::TooLarge, at)?;
    need(1 <= n, Reason::FormulaWrong, at)?;
    need(n % 2 == 0, Reason::FormulaWrong, at)?;
    let first = at + 3;
    let past = first + n;
    need(past <= sheet.len(), Reason::EndsTooSoon, sheet.len())?;
    let leaves = judge(edition, &sheet[first..past], fitted + names, at, first)?;
    Ok(Field::Formula {
        first,
        past,
        leaves,
    })
}

// The field at offset `at` of the customer's sheet, after a header of this edition and `names` names.
#[tactic(auto, unfolding(sheet::specs::Sheet::field_at, sheet::specs::Sheet::name_at))]
pub fn one_field(
    edition: usize,
    fittings: &[u8],
    fitted: usize,
    sheet: &[u8],
    at: usize,
    names: usize,
    keys: &[u32; NAMES],
) -> Result<Field, Fault>
    requires { NamesRead fittings.now fitted sheet.now names keys.now × (edition ≤ 2) }
    ensures { part (shown sheet.now) (judged result) ≡ part seen (field_at (fitted_by edition fittings.now fitted) sheet.now at (walk_names sheet.now 5 names) false) }
{
    need(at < sheet.len(), Reason::EndsTooSoon, sheet.len())?;
    let tag = usize::from(sheet[at]);
    if tag == 2 {
        name_field(fittings, fitted, sheet, at, names, keys)
    } else if tag == edition + 2 {
        formula_field(edition, fittings, fitted, sheet, at, names)
    } else {
        Err(Reason::TagOutOfPlace.at(at))
    }
}

// After the formula, which ends at offset `at` of the customer's sheet, nothing stands.
pub fn ended(sheet: &[u8], at: usize) -> Result<(), Fault>
    ensures { judged result ≡ end_at sheet.now at }
{
    need(sheet.len() <= at, Reason::TagOutOfPlace, at)
}

// The field at offset `at` of a fittings sheet, after the header and `names` names.
#[tactic(auto, using(sheet::proofs::Names::walk_length), unfolding(sheet::specs::Sheet::fitting_at, sheet::specs::Walk::walk_names))]
pub fn one_fitting(
    sheet: &[u8],
    at: usize,
    names: usize,
    keys: &[u32; NAMES],
) -> Result<Field, Fault>
    requires { NamesRead sheet.now 0 sheet.now names keys.now }
    ensures { part (shown sheet.now) (judged result) ≡ part seen (fitting_at sheet.now at (walk_names sheet.now 5 names)) }
{
    if at < sheet.len() {
        need(sheet[at] == 2, Reason::TagOutOfPlace, at)?;
        name_field(sheet, 0, sheet, at, names, keys)
    } else {
        need(0 < names, Reason::EndsTooSoon, sheet.len())?;
        Ok(Field::End)
    }
}

// The header, of an edition from 1 up to `last`, which it answers.
#[tactic(auto, unfolding(sheet::specs::Sheet::header, sheet::specs::Sheet::length_at))]
pub fn header(last: usize, sheet: &[u8]) -> Result<usize, Fault>
    ensures { judged result ≡ header_of last sheet.now }
{
    need(0 < sheet.len(), Reason::EndsTooSoon, sheet.len())?;
    need(sheet[0] == 1, Reason::TagOutOfPlace, 0)?;
    need(3 <= sheet.len(), Reason::EndsTooSoon, sheet.len())?;
    need(sheet::two(sheet, 1) == 2, Reason::HeaderWrong, 0)?;
    need(5 <= sheet.len(), Reason::EndsTooSoon, sheet.len())?;
    let edition = sheet::two(sheet, 3);
    need(1 <= edition, Reason::HeaderWrong, 0)?;
    need(edition <= last, Reason::HeaderWrong, 0)?;
    Ok(edition)
}
