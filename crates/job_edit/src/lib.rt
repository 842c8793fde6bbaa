// The job of a toggle run with edits: a root and a count for each toggle, the labels after the last, and a count for each edit, given to the caller's lists.
#![tactic(auto)]

ghost use Rattle.std.specs.Prelude.{◌≡◌, ◌<◌, ◌≤◌, ◌&&◌, length, eqb};
ghost use Rattle.outcome.specs.Refusing.{answered};
ghost use Rattle.formula.specs.Formula.{Formula};
ghost use Rattle.sheet.specs.Sheet.{sheets_of};
ghost use Rattle.edit_places.specs.Places.{Built, Buildable};
ghost use Rattle.job_edit.specs.Editing.{lists, editing, running_edited};
ghost use Rattle.job_edit.specs.Edited.{Edited};

use contraction::{CODES, NODES, Records};
use edits::EditLists;
use labels::Size;
use outcome::{Reason, Refusal, need, room};

fn equally_long(edits: EditLists<'_>) -> bool
    ensures { let e = edits.entry in let many = length e.moments.now in result ≡ (eqb (length e.positions.now) many && eqb (length e.codes.now) many) }
{
    let many = edits.moments.len();
    edits.positions.len() == many && edits.codes.len() == many
}

// Runs toggles and edits on the dwarf tree of a formula of these codes, where the edit lists are equally long, each toggle is a shape of the
// sheet, each edit fits, and there is room in each answer list.
#[tactic(auto, unfolding(crate::specs::Editing::editing, crate::specs::Editing::lending))]
fn run_on(
    formula: &[u16],
    records: &mut Records,
    size: Size,
    names: usize,
    toggles: &[u16],
    edits: EditLists<'_>,
    roots: &mut [u8],
    counts: &mut [u32],
    labels: &mut [u8],
    edit_counts: &mut [u32],
) -> Result<usize, Refusal>
    requires few { (length formula.now < CODES) × (names ≤ 256) }
    requires buildable { let r = records.old in Buildable formula.now r.kinds r.firsts r.seconds size.leaves size.nodes }
    ensures { let r = records.old in let e = edits.entry in let lent = lists roots.old counts.old labels.old edit_counts.old in
        (g : Formula) → Built formula.now r.kinds r.firsts r.seconds size.leaves size.nodes g
        → Edited (editing g names toggles.now e.moments.now e.positions.now e.codes.now lent) lent (answered result)
        (lists roots.new counts.new labels.new edit_counts.new) }
{
    need(equally_long(edits), Reason::LengthsDiffer, 0)?;
    toggle_run::all_named(toggles, names)?;
    edit_checking::all_fit(formula, toggles.len() as u64, edits)?;
    room(toggles.len(), roots.len())?;
    room(toggles.len(), counts.len())?;
    room(size.nodes, labels.len())?;
    room(edits.moments.len(), edit_counts.len())?;
    edit_run::run_edited(
        formula,
        records,
        size,
        toggles,
        edits,
        roots,
        counts,
        labels,
        edit_counts,
    );
    Ok(size.nodes)
}

// Runs toggles and edits on a sheet's tree, with every shape outside at first.
pub fn run_edited(
    fitted: bool,
    fittings: &[u8],
    sheet: &[u8],
    toggles: &[u16],
    edits: EditLists<'_>,
    roots: &mut [u8],
    counts: &mut [u32],
    labels: &mut [u8],
    edit_counts: &mut [u32],
) -> Result<usize, Refusal>
    ensures { let e = edits.entry in let lent = lists roots.old counts.old labels.old edit_counts.old in
        Edited (running_edited (sheets_of fitted fittings.now sheet.now) toggles.now e.moments.now e.positions.now e.codes.now lent) lent (answered result)
        (lists roots.new counts.new labels.new edit_counts.new) }
{
    let mut formula = [0u16; CODES];
    let mut records = Records {
        kinds: [0; NODES],
        firsts: [0; NODES],
        seconds: [0; NODES],
    };
    let prepared = accepting::prepare(fitted, fittings, sheet, &mut formula, &mut records)?;
    let size = Size {
        leaves: prepared.built.leaves,
        nodes: prepared.built.nodes,
    };
    run_on(
        &formula[..prepared.codes],
        &mut records,
        size,
        prepared.names,
        toggles,
        edits,
        roots,
        counts,
        labels,
        edit_counts,
    )
}
