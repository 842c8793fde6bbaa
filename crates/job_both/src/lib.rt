// Two foundries on one sheet: the tree is built once, and each foundry's toggles are run on it with labels and lists of its own.
#![tactic(auto)]

ghost use Rattle.std.specs.Prelude.{◌≡◌};
ghost use Rattle.sheet.specs.Sheet.{sheets_of};
ghost use Rattle.job_both.specs.Shared.{lists, Shared};
ghost use Rattle.job_both.specs.Refusals.{both_refused};

use contraction::{CODES, NODES, Records};
use job_run::run_toggles;
use order_mixing::mixes;
use outcome::{Reason, Refusal};

// What each foundry is answered.
#[derive(Clone, Copy, Debug, PartialEq, Eq)]
pub struct BothAnswer {
    pub first: Result<usize, Refusal>,
    pub second: Result<usize, Refusal>,
}

// A refusal that goes to both.
fn both_refused(why: Refusal) -> BothAnswer
    ensures { result ≡ both_refused why }
{
    BothAnswer {
        first: Err(why),
        second: Err(why),
    }
}

// Runs the toggles of two foundries on the tree of one sheet, one foundry after the other, with every shape outside at first for each.
pub fn run_both(
    fitted: bool,
    fittings: &[u8],
    sheet: &[u8],
    order: &[u8],
    first: &[u16],
    second: &[u16],
    first_roots: &mut [u8],
    first_counts: &mut [u32],
    first_labels: &mut [u8],
    second_roots: &mut [u8],
    second_counts: &mut [u32],
    second_labels: &mut [u8],
) -> BothAnswer
    ensures { Shared (sheets_of fitted fittings.now sheet.now) order.now first.now second.now
        (lists first_roots.old first_counts.old first_labels.old) (lists second_roots.old second_counts.old second_labels.old) result
        (lists first_roots.new first_counts.new first_labels.new) (lists second_roots.new second_counts.new second_labels.new) }
{
    let mut codes = [0u16; CODES];
    let mut records = Records {
        kinds: [0; NODES],
        firsts: [0; NODES],
        seconds: [0; NODES],
    };
    match accepting::prepare(fitted, fittings, sheet, &mut codes, &mut records) {
        Err(why) => both_refused(why),
        Ok(prepared) => {
            if !mixes(order, first.len(), second.len()) {
                return both_refused(Refusal::Refused(Reason::LengthsDiffer.at(0)));
            }
            let to_first = run_toggles(
                &records,
                prepared.built,
                prepared.names,
                first,
                first_roots,
                first_counts,
                first_labels,
            );
            let to_second = run_toggles(
                &records,
                prepared.built,
                prepared.names,
                second,
                second_roots,
                second_counts,
                second_labels,
            );
            BothAnswer {
                first: to_first,
                second: to_second,
            }
        }
    }
}
