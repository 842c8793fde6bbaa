// One act of a run on a dwarf tree in arrays: the edit whose moment has come, or the next toggle.
#![tactic(auto)]

ghost use Rattle.std.specs.Prelude.{◌≡◌, ◌+◌, ◌<◌, length};
ghost use Rattle.edit_labels.specs.Edited.{KindsAlone};
ghost use Rattle.edit_moments.specs.Waiting.{desk};
ghost use Rattle.edit_mix.specs.Acting.{CanToggle, ToggleDone, CanAct, Acted};

use contraction::{CODES, NODES, Records};
use edits::EditLists;
use labels::{DwarfTree, LINKS, RULES, Size};

// What stays as it is while edits and toggles act: all that a tree's passes look up but its records, and the toggles and edits.
#[derive(Clone, Copy, Drop)]
pub struct Board<'a> {
    pub rules: &'a [u8; RULES],
    pub size: Size,
    pub links: &'a [u16; LINKS],
    pub places: &'a [u16; CODES],
    pub toggles: &'a [u16],
    pub edits: EditLists<'a>,
}

// What a toggle gives.
#[derive(Drop)]
struct Toggled {
    root: u8,
    count: u32,
}

// Toggle i of the list.
fn toggle_one(tree: DwarfTree<'_>, labels: &mut [u8; NODES], toggles: &[u16], i: usize) -> Toggled
    requires { let r = tree.records.now in CanToggle tree.rules.now r.kinds r.firsts r.seconds tree.size tree.links.now labels.old toggles.now i }
    ensures { let r = tree.entry.records.now in ToggleDone r.kinds r.firsts r.seconds tree.entry.size toggles.now i labels.old labels.new result }
{
    let count = toggles::toggle(tree, labels, usize::from(toggles[i]));
    let root = toggle_run::root(labels, tree.size.nodes);
    Toggled { root, count }
}

// Another act, after j of which k were edits: the number of edits then.
pub fn act(
    board: Board<'_>,
    records: &mut Records,
    labels: &mut [u8; NODES],
    roots: &mut [u8],
    counts: &mut [u32],
    edit_counts: &mut [u32],
    j: usize,
    k: usize,
) -> usize
    requires can_act { let e = board.edits in
        CanAct (desk board.rules.now records.old.firsts records.old.seconds board.size board.links.now board.places.now e.moments.now e.positions.now e.codes.now)
        board.toggles.now j k records.old.kinds labels.old roots.old counts.old edit_counts.old }
    requires j_in_bounds { j < length board.toggles.now + length board.edits.moments.now }
    ensures kinds_alone { KindsAlone records.old records.new }
    ensures acted { let b = board.entry in let e = b.edits in
        Acted (desk b.rules.now records.old.firsts records.old.seconds b.size b.links.now b.places.now e.moments.now e.positions.now e.codes.now)
        b.toggles.now j k result records.old.kinds labels.old roots.old counts.old edit_counts.old
        records.new.kinds labels.new roots.new counts.new edit_counts.new }
{
    let i = j - k;
    match edit_moments::next_edit(board.edits, board.places, k, i) {
        Some(next) => {
            edit_counts[k] = edit_labels::edit(
                board.rules,
                records,
                board.size,
                board.links,
                labels,
                next.node,
                next.operation,
            );
            k + 1
        }
        None => {
            let tree = DwarfTree {
                rules: board.rules,
                records,
                size: board.size,
                links: board.links,
            };
            let t = toggle_one(tree, labels, board.toggles, i);
            counts[i] = t.count;
            roots[i] = t.root;
            k
        }
    }
}
