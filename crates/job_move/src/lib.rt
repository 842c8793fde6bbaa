// The move: the customer's sheet in the edition that it has not. Document 02, K10 and K11.
#![tactic(auto)]

ghost use Rattle.std.specs.Prelude.{◌≡◌, ◌≤◌, length};
ghost use Rattle.outcome.specs.Lent.{filled};
ghost use Rattle.sheet.specs.Sheet.{sheets_of, codes_of};
ghost use Rattle.sheet_descent.specs.Descent.{GoodIn};
ghost use Rattle.job_move.specs.Moving.{moving};
ghost use Rattle.job_move.specs.Moved.{Moved as Promise};
ghost use Rattle.job_move.specs.Putting.{OtherCodes, many_exclusive, first_exclusive, Holding, UsedAt, Movable, MovedTo};

use contraction::CODES;
use outcome::{Reason, Refusal, room};

// The operation that edition 2 has no longer.
const EXCLUSIVE: u16 = 0xFFF3;

// Puts the codes of a good formula of this edition into an array, in the order of the edition that this one is not, and answers how many
// they are.
fn other_codes(edition: u8, formula: &[u8], names: usize, codes: &mut [u16; CODES]) -> usize
    requires { GoodIn edition names formula.now codes.old }
    ensures { OtherCodes edition names formula.now codes.new result }
{
    if edition == 1 {
        return sheet_laying::lay_first(formula, codes);
    }
    sheet_descent::fill_codes(edition, formula, names, codes)
}

// Gives the bytes before the codes.
// Kept: byte by byte. For copy_from_slice the archive would need memmove from outside.
fn give_front(front: &[u8], moved: &mut [u8])
    requires { length front.now ≤ length moved.old }
    ensures { moved.new ≡ filled front.now moved.old }
{
    for (i, &byte) in front.iter().enumerate() {
        moved[i] = byte;
    }
}

// Gives the sheet in the other edition; the codes of its formula are in that edition's order.
fn give_moved(sheet: &[u8], codes: &[u16], moved: &mut [u8])
    requires { Movable sheet.now codes.now moved.old }
    ensures { MovedTo sheet.now codes.now moved.old moved.new }
{
    let first = sheet.len() - 2 * codes.len();
    let edition = sheet[4];
    give_front(&sheet[..first], moved);
    moved[4] = 3 - edition;
    moved[first - 3] = 5 - edition;
    sheet_laying::put_codes(codes, moved, first);
}

// How many of these codes are 0xFFF3. Few sheets have one, and a sum over all codes takes a tenth of the search for the first.
fn count_exclusive(codes: &[u16]) -> u16
    requires { length codes.now ≤ 2048 }
    ensures { result ≡ many_exclusive codes.now }
{
    let mut many: u16 = 0;
    for &code in codes {
        many += u16::from(code == EXCLUSIVE);
    }
    many
}

// The index of the first 0xFFF3 among the codes of a formula's bytes.
fn first_exclusive(formula: &[u8]) -> Option<usize>
    ensures { result ≡ first_exclusive (codes_of formula.now) }
{
    for i in 0..formula.len() / 2 {
        if sheet::two(formula, 2 * i) == usize::from(EXCLUSIVE) {
            return Some(i);
        }
    }
    None
}

// The offset of the code for which the move is refused: the first 0xFFF3 of a sheet of edition 1.
fn used_at(sheet: &[u8], codes: &[u16]) -> Option<usize>
    requires { Holding sheet.now codes.now }
    ensures { UsedAt sheet.now codes.now result }
{
    if sheet[4] == 2 {
        return None;
    }
    if count_exclusive(codes) == 0 {
        return None;
    }
    let first = sheet.len() - 2 * codes.len();
    let i = first_exclusive(&sheet[first..])?;
    Some(first + 2 * i)
}

// Gives the customer's sheet in the edition that it has not, and answers its length.
pub fn move_sheet(
    fitted: bool,
    fittings: &[u8],
    sheet: &[u8],
    moved: &mut [u8],
) -> Result<usize, Refusal>
    ensures { Promise (moving (sheets_of fitted fittings.now sheet.now) (length moved.old)) moved.old result moved.new }
{
    let read = sheet_reading::read_sheets(fitted, fittings, sheet)?;
    let mut codes = [0; CODES];
    let n = other_codes(
        sheet[4],
        &sheet[read.first..read.past],
        read.names,
        &mut codes,
    );
    let codes = &codes[..n];
    if let Some(at) = used_at(sheet, codes) {
        return Err(Refusal::from(Reason::OutOfUse.at(at)));
    }
    room(sheet.len(), moved.len())?;
    give_moved(sheet, codes, moved);
    Ok(sheet.len())
}
