// What every job does first: the sheets are read and judged, the formula's codes and its dwarf tree put into arrays.
#![tactic(auto)]

ghost use Rattle.sheet.specs.Sheet.{sheets_of};
ghost use Rattle.tree_tokens.specs.Tokens.{Long};
ghost use Rattle.accepting.specs.Prepared.{SaysCoded, Says};

use contraction::{CODES, Records};
use outcome::Refusal;
use tree_dwarf::Figures;

// What is accepted: the number of names and of codes.
#[derive(Clone, Copy, Debug, PartialEq, Eq)]
pub struct Acceptance {
    pub names: usize,
    pub codes: usize,
}

// The formula's codes in an array, in postfix order. 8 needs no test: no formula of a sheet has a dwarf tree taller than 57.
pub fn accept(
    fitted: bool,
    fittings: &[u8],
    sheet: &[u8],
    codes: &mut [u16; CODES],
) -> Result<Acceptance, Refusal>
    ensures { SaysCoded (sheets_of fitted fittings.now sheet.now) codes.new result }
{
    let read = sheet_reading::read_sheets(fitted, fittings, sheet)?;
    let n = sheet_descent::fill_codes(sheet[4], &sheet[read.first..read.past], read.names, codes);
    Ok(Acceptance {
        names: read.names,
        codes: n,
    })
}

// What is prepared: the number of names, of codes, and what is built.
#[derive(Drop)]
pub struct Prepared {
    pub names: usize,
    pub codes: usize,
    pub built: Figures,
}

// The formula's codes and its dwarf tree in arrays.
pub fn prepare(
    fitted: bool,
    fittings: &[u8],
    sheet: &[u8],
    codes: &mut [u16; CODES],
    records: &mut Records,
) -> Result<Prepared, Refusal>
    ensures long { Long records.old → Long records.new }
    ensures says { Says (sheets_of fitted fittings.now sheet.now) codes.new records.new result }
{
    let accepted = accept(fitted, fittings, sheet, codes)?;
    let built = tree_dwarf::build_tree(&codes[..accepted.codes], records);
    Ok(Prepared {
        names: accepted.names,
        codes: accepted.codes,
        built,
    })
}
