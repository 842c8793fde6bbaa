// Reads the sheets of a call, field after field: document 01, 'Order of reading', and document 02, K7 and K10.
#![tactic(auto)]

ghost use Rattle.std.specs.Prelude.{◌≡◌, [], ◌≤◌, length};
ghost use Rattle.outcome.specs.Refusing.{judged, answered};
ghost use Rattle.sheet.specs.Sheet.{sheets_of, fitting_fields, fitting_names};
ghost use Rattle.sheet.specs.Walk.{walk_names, fitted_by};
ghost use Rattle.sheet_names.specs.Keys.{NamesRead};
ghost use Rattle.sheet_reading.specs.Reading.{told};
ghost use Rattle.sheet_reading.specs.Told.{told_own, told_from, fittings_of, FittingsRead, FittingsAre};

use outcome::{Fault, Reason, Refusal};
use sheet::NAMES;
use sheet_fields::Field;

// What the sheets hold: how many names, and how many leaves the formula has, which stands from offset `first` up to `past`.
#[derive(Clone, Copy, Debug, PartialEq, Eq)]
pub struct Read {
    pub names: usize,
    pub leaves: usize,
    pub first: usize,
    pub past: usize,
}

// Reads the sheets of a call: the customer's, beside a fittings sheet where there is one.
pub fn read_sheets(fitted: bool, fittings: &[u8], sheet: &[u8]) -> Result<Read, Refusal>
    ensures { answered result ≡ told (sheets_of fitted fittings.now sheet.now) }
{
    let mut keys = [0; NAMES];
    match fit_first(fitted, fittings, &mut keys) {
        Ok(count) => Ok(read_own(fittings, count, sheet, &mut keys)?),
        Err(fault) => Err(Refusal::Unfit(fault)),
    }
}

// Reads the fittings sheet where there is one, and answers how many names it has; where there is none it has no names.
fn fit_first(fitted: bool, fittings: &[u8], keys: &mut [u32; NAMES]) -> Result<usize, Fault>
    ensures { FittingsAre fittings.now (fittings_of fitted fittings.now) keys.new result }
{
    if fitted { fit(fittings, keys) } else { Ok(0) }
}

// Reads a fittings sheet; the array then has the keys of its names.
fn fit(sheet: &[u8], keys: &mut [u32; NAMES]) -> Result<usize, Fault>
    ensures { FittingsAre sheet.now (fitting_names sheet.now) keys.new result }
{
    sheet_fields::header(1, sheet)?;
    fit_fields(sheet, keys)
}

// Reads the fields of a fittings sheet with a good header.
fn fit_fields(sheet: &[u8], keys: &mut [u32; NAMES]) -> Result<usize, Fault>
    requires { 5 ≤ length sheet.now }
    ensures { FittingsAre sheet.now (fitting_fields 257 sheet.now 5 []) keys.new result }
{
    let mut at: usize = 5;
    let mut names: usize = 0;
    loop {
        match sheet_fields::one_fitting(sheet, at, names, keys)? {
            Field::Name { past, key, .. } => {
                keys[names] = key;
                at = past;
                names += 1;
            }
            Field::Formula { .. } => return Err(Reason::TagOutOfPlace.at(at)),
            Field::End => return Ok(names),
        }
    }
}

// Reads the customer's sheet, after the names of a fittings sheet.
fn read_own(
    fittings: &[u8],
    fitted: usize,
    sheet: &[u8],
    keys: &mut [u32; NAMES],
) -> Result<Read, Fault>
    requires { FittingsRead fittings.now fitted keys.old }
    ensures { judged result ≡ told_own (walk_names fittings.now 5 fitted) sheet.now }
{
    let edition = sheet_fields::header(2, sheet)?;
    read_fields(edition, fittings, fitted, sheet, keys)
}

// Reads the fields of a customer's sheet with a good header of this edition.
fn read_fields(
    edition: usize,
    fittings: &[u8],
    fitted: usize,
    sheet: &[u8],
    keys: &mut [u32; NAMES],
) -> Result<Read, Fault>
    requires { NamesRead fittings.now fitted sheet.now 0 keys.old × (edition ≤ 2) }
    ensures { judged result ≡ told_from (fitted_by edition fittings.now fitted) 257 sheet.now 5 [] }
{
    let mut at: usize = 5;
    let mut names: usize = 0;
    loop {
        match sheet_fields::one_field(edition, fittings, fitted, sheet, at, names, keys)? {
            Field::Name { past, key, .. } => {
                keys[fitted + names] = key;
                at = past;
                names += 1;
            }
            Field::Formula {
                first,
                past,
                leaves,
            } => {
                sheet_fields::ended(sheet, past)?;
                return Ok(Read {
                    names: fitted + names,
                    leaves,
                    first,
                    past,
                });
            }
            Field::End => return Err(Reason::EndsTooSoon.at(sheet.len())),
        }
    }
}
