// Asking for all names at once: where each stands, the sheets read once. The lists are filled from the front, a name an entry.
#![tactic(auto)]

ghost use Rattle.std.specs.Prelude.{◌+◌, ◌≤◌, ◌++◌, length};
ghost use Rattle.outcome.specs.Outcome.{given};
ghost use Rattle.sheet.specs.Sheet.{sheets_of};
ghost use Rattle.sheet.specs.Walk.{walk_end};
ghost use Rattle.job_name.specs.Within.{Held, ReadAs};
ghost use Rattle.job_names.specs.Names.{naming_all};
ghost use Rattle.job_names.specs.NamedAll.{NameLists, NamedAll as Promise};
ghost use Rattle.job_names.specs.Standing.{fields_in, standing, Room};

use outcome::{Refusal, room};

// Lists the first n names of a sheet, which are all there.
fn list_sheet(
    sheet: &[u8],
    which: u8,
    n: usize,
    sheets: &mut [u8],
    firsts: &mut [usize],
    pasts: &mut [usize],
)
    requires { (walk_end sheet.now 5 n ≤ length sheet.now) × Room n sheets.old firsts.old pasts.old }
    ensures { NameLists (given (fields_in which sheet.now n)) sheets.old firsts.old pasts.old sheets.new firsts.new pasts.new }
{
    let mut at = 5;
    for i in 0..n {
        let past = sheet::past(sheet, at);
        sheets[i] = which;
        firsts[i] = at + 3;
        pasts[i] = past;
        at = past;
    }
}

// Lists so many names of the fittings sheet, and after them so many of the customer's, which are all there.
fn list_both(
    fittings: &[u8],
    fitted: usize,
    sheet: &[u8],
    names: usize,
    sheets: &mut [u8],
    firsts: &mut [usize],
    pasts: &mut [usize],
)
    requires { Held fittings.now fitted sheet.now names × Room (fitted + names) sheets.old firsts.old pasts.old }
    ensures { NameLists (given (fields_in 1 fittings.now fitted ++ fields_in 2 sheet.now names)) sheets.old firsts.old pasts.old sheets.new firsts.new pasts.new }
{
    list_sheet(fittings, 1, fitted, sheets, firsts, pasts);
    list_sheet(
        sheet,
        2,
        names,
        &mut sheets[fitted..],
        &mut firsts[fitted..],
        &mut pasts[fitted..],
    );
}

// Lists the names of sheets that are read, with so many names together.
fn list_names(
    fitted: bool,
    fittings: &[u8],
    sheet: &[u8],
    names: usize,
    sheets: &mut [u8],
    firsts: &mut [usize],
    pasts: &mut [usize],
)
    requires { ReadAs (sheets_of fitted fittings.now sheet.now) names × Room names sheets.old firsts.old pasts.old }
    ensures { NameLists (given (standing (sheets_of fitted fittings.now sheet.now) names)) sheets.old firsts.old pasts.old sheets.new firsts.new pasts.new }
{
    if fitted {
        let m = job_name::count(fittings);
        list_both(fittings, m, sheet, names - m, sheets, firsts, pasts);
        return;
    }
    list_both(sheet, 0, sheet, names, sheets, firsts, pasts);
}

// Gives the names of sheets that are read to the lent lists, where there is room in each, and answers how many they are.
fn give_names(
    fitted: bool,
    fittings: &[u8],
    sheet: &[u8],
    names: usize,
    sheets: &mut [u8],
    firsts: &mut [usize],
    pasts: &mut [usize],
) -> Result<usize, Refusal>
    requires { ReadAs (sheets_of fitted fittings.now sheet.now) names }
    ensures { Promise (naming_all (sheets_of fitted fittings.now sheet.now) (length sheets.old) (length firsts.old) (length pasts.old))
        sheets.old firsts.old pasts.old result sheets.new firsts.new pasts.new }
{
    room(names, sheets.len())?;
    room(names, firsts.len())?;
    room(names, pasts.len())?;
    list_names(fitted, fittings, sheet, names, sheets, firsts, pasts);
    Ok(names)
}

// Where the name of every shape stands; how many they are is answered.
pub fn place_names(
    fitted: bool,
    fittings: &[u8],
    sheet: &[u8],
    sheets: &mut [u8],
    firsts: &mut [usize],
    pasts: &mut [usize],
) -> Result<usize, Refusal>
    ensures { Promise (naming_all (sheets_of fitted fittings.now sheet.now) (length sheets.old) (length firsts.old) (length pasts.old))
        sheets.old firsts.old pasts.old result sheets.new firsts.new pasts.new }
{
    let read = sheet_reading::read_sheets(fitted, fittings, sheet)?;
    give_names(fitted, fittings, sheet, read.names, sheets, firsts, pasts)
}
