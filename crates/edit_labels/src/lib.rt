// One edit on a dwarf tree in arrays: the kind of its node changes, and labels are reworked from that node up.
#![tactic(auto)]

ghost use Rattle.std.specs.Prelude.{◌≡◌, ◌<◌};
ghost use Rattle.edit_labels.specs.Edited.{Rekinded, Editable, EditDone, KindsAlone};

use contraction::{NODES, Records};
use labels::{DwarfTree, LINKS, RULES, Size};

// The kind of the same record over operation o.
fn rekind(kind: u16, o: u16) -> u16
    requires { o < 4 }
    ensures { Rekinded kind o result }
{
    match kind {
        0 => 0,
        1..=4 => 1 + o,
        5..=8 => 5 + o,
        9..=12 => 9 + o,
        13 => 13,
        _ => 14,
    }
}

// Operation o put at node e. The number of labels reworked: its own node's, and those above it for as long as labels change.
pub fn edit(
    rules: &[u8; RULES],
    records: &mut Records,
    size: Size,
    links: &[u16; LINKS],
    labels: &mut [u8; NODES],
    e: usize,
    o: u16,
) -> u32
    requires { let r = records.old in Editable rules.now r.kinds r.firsts r.seconds size.leaves size.nodes links.now labels.old e × (o < 4) }
    ensures kinds_alone { KindsAlone records.old records.new }
    ensures done { let r = records.old in
        EditDone r.kinds r.firsts r.seconds size.leaves size.nodes links.now labels.old e o records.new.kinds labels.new result }
{
    records.kinds[e] = rekind(records.kinds[e], o);
    let v = labels::work(rules, records, labels, e);
    if v == labels[e] {
        return 1;
    }
    labels[e] = v;
    let tree = DwarfTree {
        rules,
        records,
        size,
        links,
    };
    toggle_passes::walk(tree, labels, e) + 1
}
