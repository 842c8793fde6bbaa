// A run on lent lists: the toggles one after the other on a dwarf tree, with a root and a count for each, and the last labels.
#![tactic(auto)]

ghost use Rattle.std.specs.Prelude.{◌≡◌, ◌<◌, ◌≤◌, length, take, take_while, eqb, ltb, IsOk};
ghost use Rattle.formula.specs.Formula.{Formula};
ghost use Rattle.contraction.specs.Height.{last};
ghost use Rattle.contraction.specs.Entries.{recs};
ghost use Rattle.outcome.specs.Lent.{filled};
ghost use Rattle.outcome.specs.Outcome.{need};
ghost use Rattle.outcome.specs.Refusing.{judged};
ghost use Rattle.labels.specs.Arrays.{Holds, Tree};
ghost use Rattle.labels.specs.Linked.{Rules, Ready};
ghost use Rattle.toggles.specs.Named.{first_wrong as wrong_at};
ghost use Rattle.toggle_run.specs.Tables.{Tables, RunDone};
ghost use Rattle.toggle_run.specs.Ran.{ToggleRoom, RunRoom, TreeRun};

use contraction::{NODES, Records};
use labels::{DwarfTree, LINKS, RULES, Size};
use outcome::{Fault, Reason, need};

// The label of the root, which is the last node.
pub fn root(labels: &[u8; NODES], nodes: usize) -> u8
    requires { (0 < nodes) × (nodes ≤ NODES) }
    ensures { result ≡ last (take nodes labels.now) }
{
    labels[nodes - 1]
}

// The toggles one after the other, with a root and a count for each.
fn toggle_each(
    tree: DwarfTree<'_>,
    labels: &mut [u8; NODES],
    toggles: &[u16],
    roots: &mut [u8],
    counts: &mut [u32],
)
    requires rules { let r = tree.records.now in Rules tree.rules.now × Ready r.kinds r.firsts r.seconds tree.size.leaves tree.size.nodes tree.links.now }
    requires toggle_room { ToggleRoom toggles.now roots.old counts.old }
    ensures { let r = tree.entry.records.now in let nodes = tree.entry.size.nodes in
        RunDone (recs r.kinds r.firsts r.seconds 0 nodes) (take nodes labels.old) toggles.now
        roots.old counts.old (take nodes labels.new) roots.new counts.new }
{
    for (i, &s) in toggles.iter().enumerate() {
        counts[i] = toggles::toggle(tree, labels, usize::from(s));
        roots[i] = root(labels, tree.size.nodes);
    }
}

// The first labels, given in a lent list.
pub fn copy_labels(labels: &[u8; NODES], nodes: usize, list: &mut [u8])
    requires { (nodes ≤ NODES) × (nodes ≤ length list.old) }
    ensures { list.new ≡ filled (take nodes labels.now) list.old }
{
    list[..nodes].copy_from_slice(&labels[..nodes]);
}

// How many shape numbers at the front are below the number of names.
fn count_named(toggles: &[u16], names: usize) -> usize
    ensures { result ≡ length (take_while (λ s. ltb s names) toggles.now) }
{
    toggles
        .iter()
        .take_while(|&&s| usize::from(s) < names)
        .count()
}

// The index of the first shape number not below the number of names; the list's length where there is none.
#[tactic(auto, using(crate::proofs::RanLaws::by_taking))]
pub fn first_wrong(toggles: &[u16], names: usize) -> usize
    ensures { result ≡ wrong_at names toggles.now }
{
    count_named(toggles, names)
}

// 10 at the first shape number not below the number of names.
pub fn all_named(toggles: &[u16], names: usize) -> Result<(), Fault>
    ensures asked { judged result ≡ need (eqb (wrong_at names toggles.now) (length toggles.now)) 10 (wrong_at names toggles.now) }
    ensures so { IsOk result → wrong_at names toggles.now ≡ length toggles.now }
{
    let first = first_wrong(toggles, names);
    need(first == toggles.len(), Reason::NoSuchShape, first)
}

// The labels with every shape outside, and the links of the nodes.
pub fn fill_tables(
    rules: &[u8; RULES],
    records: &Records,
    size: Size,
    labels: &mut [u8; NODES],
    links: &mut [u16; LINKS],
)
    requires { Rules rules.now × Tree records.now.kinds records.now.firsts records.now.seconds size.leaves size.nodes }
    ensures { let r = records.now in Tables rules.now r.kinds r.firsts r.seconds size.leaves size.nodes labels.new links.new }
{
    labels::fill_labels(rules, records, size, labels);
    labels::fill_links(records, size, links);
}

// A toggle run on a dwarf tree, with every shape outside at first. Not joined into its callers, whose frame stands below the tree's making.
#[inline(never)]
pub fn run_tree(
    records: &Records,
    size: Size,
    toggles: &[u16],
    roots: &mut [u8],
    counts: &mut [u32],
    labels: &mut [u8],
)
    requires { let r = records.now in RunRoom r.kinds r.firsts r.seconds size.leaves size.nodes toggles.now roots.old counts.old labels.old }
    ensures { let r = records.now in (f : Formula) → Holds r.kinds r.firsts r.seconds size.leaves size.nodes f
        → TreeRun f toggles.now roots.old counts.old labels.old roots.new counts.new labels.new }
{
    let mut rules = [0u8; RULES];
    let mut current = [0u8; NODES];
    let mut links = [0u16; LINKS];
    labels::fill_rules(&mut rules);
    fill_tables(&rules, records, size, &mut current, &mut links);
    let tree = DwarfTree {
        rules: &rules,
        records,
        size,
        links: &links,
    };
    toggle_each(tree, &mut current, toggles, roots, counts);
    copy_labels(&current, size.nodes, labels);
}
