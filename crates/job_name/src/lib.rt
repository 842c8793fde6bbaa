// Asking for a shape's name: where it stands, and its bytes as a part of whichever of two lent sheets holds it.
#![tactic(auto)]

ghost use Rattle.std.specs.Prelude.{◌≡◌, ◌+◌, ◌≤◌, length};
ghost use Rattle.sheet.specs.Sheet.{sheets_of};
ghost use Rattle.sheet.specs.Walk.{walk_end};
ghost use Rattle.job_name.specs.Naming.{naming, placing};
ghost use Rattle.outcome.specs.Outcome.{part};
ghost use Rattle.outcome.specs.Refusing.{judged};
ghost use Rattle.job_name.specs.Named.{stood, placed_of, bytes_given};
ghost use Rattle.job_name.specs.Within.{Held, placed_in, fitted_number, Whole, ReadAs, StandsIn, part_of};

use outcome::{Fault, Reason, Refusal, need};

// Where a shape's name stands: its first offset and the one past its end, in the fittings sheet or in the customer's.
#[derive(Clone, Copy, Debug, PartialEq, Eq)]
pub enum Place {
    Fitting { first: usize, past: usize },
    Own { first: usize, past: usize },
}

// The offset after the first n names of a sheet, which are all there.
fn after(sheet: &[u8], n: usize) -> usize
    requires { walk_end sheet.now 5 n ≤ length sheet.now }
    ensures { (result ≡ walk_end sheet.now 5 n) × (result ≤ length sheet.now) }
{
    let mut at: usize = 5;
    let mut left = n;
    while 0 < left {
        at = sheet::past(sheet, at);
        left -= 1;
    }
    at
}

// How many names a fittings sheet has that is read.
pub fn count(fittings: &[u8]) -> usize
    requires { Whole fittings.now (fitted_number fittings.now) }
    ensures { result ≡ fitted_number fittings.now }
{
    let mut at: usize = 5;
    let mut names: usize = 0;
    while at < fittings.len() {
        at = sheet::past(fittings, at);
        names += 1;
    }
    names
}

// Where the name of a shape stands, of so many names of the fittings sheet and so many of the customer's, which are all there.
fn among_names(
    fittings: &[u8],
    fitted: usize,
    sheet: &[u8],
    names: usize,
    shape: usize,
) -> Result<Place, Fault>
    requires { Held fittings.now fitted sheet.now names × (fitted + names ≤ 256) }
    ensures { part stood (judged result) ≡ placed_in fittings.now fitted sheet.now names shape }
{
    need(shape < fitted + names, Reason::NoSuchShape, 0)?;
    if shape < fitted {
        let at = after(fittings, shape);
        let past = after(fittings, shape + 1);
        return Ok(Place::Fitting {
            first: at + 3,
            past,
        });
    }
    let k = shape - fitted;
    let at = after(sheet, k);
    let past = after(sheet, k + 1);
    Ok(Place::Own {
        first: at + 3,
        past,
    })
}

// Where the name of a shape stands in sheets that are read, with so many names together.
fn in_sheets(
    fitted: bool,
    fittings: &[u8],
    sheet: &[u8],
    names: usize,
    shape: usize,
) -> Result<Place, Fault>
    requires { ReadAs (sheets_of fitted fittings.now sheet.now) names }
    ensures { part stood (judged result) ≡ placing (sheets_of fitted fittings.now sheet.now) shape }
{
    if fitted {
        let m = count(fittings);
        return among_names(fittings, m, sheet, names - m, shape);
    }
    among_names(sheet, 0, sheet, names, shape)
}

// Where the name of a shape stands.
pub fn place_name(
    fitted: bool,
    fittings: &[u8],
    sheet: &[u8],
    shape: usize,
) -> Result<Place, Refusal>
    ensures { placed_of result ≡ placing (sheets_of fitted fittings.now sheet.now) shape }
{
    let read = sheet_reading::read_sheets(fitted, fittings, sheet)?;
    Ok(in_sheets(fitted, fittings, sheet, read.names, shape)?)
}

// The bytes that an answer stands for; none where it is a refusal.
fn part_of<'a>(fittings: &'a [u8], sheet: &'a [u8], found: Result<Place, Refusal>) -> &'a [u8]
    requires { StandsIn fittings.now sheet.now found }
    ensures { result.now ≡ part_of fittings.now sheet.now found }
{
    match found {
        Ok(Place::Fitting { first, past }) => &fittings[first..past],
        Ok(Place::Own { first, past }) => &sheet[first..past],
        Err(_) => &sheet[0..0],
    }
}

// The bytes of a shape's name, as they stand in whichever of the two sheets holds it; none where there is no name.
pub fn name<'a>(fitted: bool, fittings: &'a [u8], sheet: &'a [u8], shape: usize) -> &'a [u8]
    ensures { result.now ≡ bytes_given (naming (sheets_of fitted fittings.now sheet.now) shape) }
{
    part_of(fittings, sheet, place_name(fitted, fittings, sheet, shape))
}
