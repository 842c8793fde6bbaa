// The job of classifying lines: where there is metal, given to the caller's lists.
#![tactic(auto)]

ghost use Rattle.sheet.specs.Sheet.{sheets_of};
ghost use Rattle.line_blocks.specs.Blocks.{call_lists};
ghost use Rattle.line_writing.specs.Lists.{lists_in, SameLists};
ghost use Rattle.job_classify.specs.Classifying.{classifying};
ghost use Rattle.job_classify.specs.Classified.{Classified};

use contraction::CODES;
use line_lists::Crossings;
use line_writing::lists::WallLists;
use outcome::Refusal;

// Classifies lines against a sheet's formula: where there is metal; how many walls.
pub fn classify(
    fitted: bool,
    fittings: &[u8],
    sheet: &[u8],
    rows: &[u8],
    x: Crossings<'_>,
    walls: &mut WallLists<'_>,
) -> Result<usize, Refusal>
    ensures classified { Classified (classifying (sheets_of fitted fittings.now sheet.now) (call_lists rows.now x.entry) (lists_in walls.old)) (lists_in walls.old) result (lists_in walls.new) }
    ensures same { SameLists walls.old walls.new }
{
    let mut codes = [0; CODES];
    let accepted = accepting::accept(fitted, fittings, sheet, &mut codes)?;
    let part = &codes[..accepted.codes];
    let count = line_walls::classify(part, accepted.names, rows, x, walls)?;
    Ok(count)
}
