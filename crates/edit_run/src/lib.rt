// A toggle run with edits on a dwarf tree, on lent lists: places and tables filled, edits and toggles each in its time, the labels at the end.
#![tactic(auto)]

ghost use Rattle.edit_labels.specs.Edited.{KindsAlone};
ghost use Rattle.edit_run.specs.Ran.{EditRoom, EditedRuns};

use contraction::{CODES, NODES, Records};
use edit_mix::Board;
use edits::EditLists;
use labels::{LINKS, RULES, Size};

// A toggle run with edits on the dwarf tree of a formula of these codes, with every shape outside at first. The kinds are left as edited.
pub fn run_edited(
    formula: &[u16],
    records: &mut Records,
    size: Size,
    toggles: &[u16],
    edits: EditLists<'_>,
    roots: &mut [u8],
    counts: &mut [u32],
    labels: &mut [u8],
    edit_counts: &mut [u32],
)
    requires { let r = records.old in let e = edits in
        EditRoom formula.now r.kinds r.firsts r.seconds size.leaves size.nodes toggles.now e.moments.now e.positions.now e.codes.now
        roots.old counts.old labels.old edit_counts.old }
    ensures runs { let r = records.old in let e = edits.entry in
        EditedRuns formula.now r.kinds r.firsts r.seconds size.leaves size.nodes toggles.now e.moments.now e.positions.now e.codes.now
        roots.old counts.old labels.old edit_counts.old roots.new counts.new labels.new edit_counts.new }
    ensures kinds_alone { KindsAlone records.old records.new }
{
    let mut places = [0u16; CODES];
    let mut rules = [0u8; RULES];
    let mut current = [0u8; NODES];
    let mut links = [0u16; LINKS];
    edit_places::fill_places(formula, records, size, &mut places);
    labels::fill_rules(&mut rules);
    toggle_run::fill_tables(&rules, records, size, &mut current, &mut links);
    let board = Board {
        rules: &rules,
        size,
        links: &links,
        places: &places,
        toggles,
        edits,
    };
    let mut k = 0;
    for j in 0..toggles.len() + edits.moments.len() {
        k = edit_mix::act(
            board,
            records,
            &mut current,
            roots,
            counts,
            edit_counts,
            j,
            k,
        );
    }
    toggle_run::copy_labels(&current, size.nodes, labels);
}
