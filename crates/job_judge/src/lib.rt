// The job of judging another ray caster's wall list: whether it is right, or the first entry at which it is not.
#![tactic(auto)]

ghost use Rattle.std.specs.Prelude.{◌≡◌};
ghost use Rattle.sheet.specs.Sheet.{sheets_of};
ghost use Rattle.line_blocks.specs.Blocks.{call_lists};
ghost use Rattle.line_opinion.specs.Judging.{their_lists};
ghost use Rattle.job_judge.specs.Judging.{judging};
ghost use Rattle.job_judge.specs.Judged.{judged_of};

use contraction::CODES;
use line_judge::Opinion;
use line_lists::Crossings;
use outcome::Refusal;

// Judges their wall list against the walls of a sheet's formula on the same lines. `Wrong` has the index of the first entry after which no right list could begin that way, or the list's length if it only lacks entries.
pub fn judge(
    fitted: bool,
    fittings: &[u8],
    sheet: &[u8],
    rows: &[u8],
    x: Crossings<'_>,
    their_lines: &[u32],
    their_starts: &[i32],
    their_ends: &[i32],
) -> Result<Opinion, Refusal>
    ensures { judged_of result ≡ judging (sheets_of fitted fittings.now sheet.now) (call_lists rows.now x.entry) (their_lists their_lines.now their_starts.now their_ends.now) }
{
    let mut codes = [0; CODES];
    let accepted = accepting::accept(fitted, fittings, sheet, &mut codes)?;
    let part = &codes[..accepted.codes];
    let opinion = line_judge::judge(
        part,
        accepted.names,
        rows,
        x,
        their_lines,
        their_starts,
        their_ends,
    )?;
    Ok(opinion)
}
