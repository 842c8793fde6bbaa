// The job of a toggle run: a root and a count for each toggle, and the labels after the last, given to the caller's lists.
#![tactic(auto)]

ghost use Rattle.std.specs.Prelude.{◌≡◌, ◌≤◌, length};
ghost use Rattle.formula.specs.Formula.{Formula};
ghost use Rattle.labels.specs.Arrays.{Tree, Holds};
ghost use Rattle.sheet.specs.Sheet.{sheets_of};
ghost use Rattle.job_run.specs.Running.{toggling, running};
ghost use Rattle.outcome.specs.Refusing.{answered};
ghost use Rattle.job_run.specs.Ran.{Ran};

use contraction::{CODES, NODES, Records};
use labels::Size;
use outcome::{Refusal, room};
use tree_dwarf::Figures;

// Runs toggles on a dwarf tree, where each is a shape of the sheet and there is room in each list.
#[tactic(auto, unfolding(crate::specs::Running::toggling))]
pub fn run_toggles(
    records: &Records,
    built: Figures,
    names: usize,
    toggles: &[u16],
    roots: &mut [u8],
    counts: &mut [u32],
    labels: &mut [u8],
) -> Result<usize, Refusal>
    requires { let r = records.now in Tree r.kinds r.firsts r.seconds built.leaves built.nodes × (names ≤ 256) }
    ensures { let r = records.now in (g : Formula) → Holds r.kinds r.firsts r.seconds built.leaves built.nodes g
        → Ran (toggling g names toggles.now (length roots.old) (length counts.old) (length labels.old))
        roots.old counts.old labels.old (answered result) roots.new counts.new labels.new }
{
    toggle_run::all_named(toggles, names)?;
    room(toggles.len(), roots.len())?;
    room(toggles.len(), counts.len())?;
    room(built.nodes, labels.len())?;
    let size = Size {
        leaves: built.leaves,
        nodes: built.nodes,
    };
    toggle_run::run_tree(records, size, toggles, roots, counts, labels);
    Ok(built.nodes)
}

// Runs toggles on a sheet's tree, with every shape outside at first: how many labels there are.
pub fn run(
    fitted: bool,
    fittings: &[u8],
    sheet: &[u8],
    toggles: &[u16],
    roots: &mut [u8],
    counts: &mut [u32],
    labels: &mut [u8],
) -> Result<usize, Refusal>
    ensures { Ran (running (sheets_of fitted fittings.now sheet.now) toggles.now (length roots.old) (length counts.old) (length labels.old))
        roots.old counts.old labels.old (answered result) roots.new counts.new labels.new }
{
    let mut codes = [0u16; CODES];
    let mut records = Records {
        kinds: [0; NODES],
        firsts: [0; NODES],
        seconds: [0; NODES],
    };
    let prepared = accepting::prepare(fitted, fittings, sheet, &mut codes, &mut records)?;
    run_toggles(
        &records,
        prepared.built,
        prepared.names,
        toggles,
        roots,
        counts,
        labels,
    )
}
