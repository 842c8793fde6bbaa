// Labels: one by its kind, all of them afresh; the links of the nodes: each node's parent and the leaves of each shape.
#![tactic(auto)]

ghost use Rattle.std.specs.Prelude.{◌≡◌, true, false, [], ◌∷◌, ◌<◌, get_or, set, take};
ghost use Rattle.formula.specs.Formula.{meaning as meaning_of, op_at};
ghost use Rattle.formula.specs.States.{outside};
ghost use Rattle.contraction.specs.Records.{left, right, children};
ghost use Rattle.labels.specs.Labels.{pair as pair_of, pick as pick_of, raked, rule, label as label_of, labels as afresh};
ghost use Rattle.contraction.specs.Entries.{entry, kind_at, rec_of, rec_at, recs};
ghost use Rattle.labels.specs.Linked.{Rules, Shaped, adopted, Parents, Chains, Bare, Above};

use contraction::{NODES, Records};

// What operation o says of the left operand a and the right operand b.
#[tactic(auto, using(crate::proofs::Ranges::meaning_rest))]
fn meaning(o: u16, a: bool, b: bool) -> bool
    ensures { result ≡ meaning_of (op_at o) a b }
{
    match o {
        0 => a | b,
        1 => a & b,
        2 => a & !b,
        _ => a ^ b,
    }
}

// What a pair gives for the value from below.
fn pick(p: u8, v: bool) -> bool
    ensures { result ≡ pick_of p v }
{
    if v { p / 2 != 0 } else { p % 2 != 0 }
}

fn pair(a: bool, b: bool) -> u8
    ensures { result ≡ pair_of a b }
{
    2 * u8::from(a) + u8::from(b)
}

// R with the left operand raked: the operation with 1 and with 0 on the right.
fn raked_left(o: u16, v: bool) -> u8
    ensures { result ≡ raked left (op_at o) v }
{
    pair(meaning(o, v, true), meaning(o, v, false))
}

// R with the right operand raked: the operation with 1 and with 0 on the left.
fn raked_right(o: u16, v: bool) -> u8
    ensures { result ≡ raked right (op_at o) v }
{
    pair(meaning(o, true, v), meaning(o, false, v))
}

// The first pair applied to the second.
fn compose(x: u8, y: u8) -> u8
    ensures { result ≡ pair_of (pick_of x (pick_of y true)) (pick_of x (pick_of y false)) }
{
    pair(pick(x, pick(y, true)), pick(x, pick(y, false)))
}

// A label by kind, from the state of the shape and from the labels of first and second.
// Kept: kinds are numbers here and in the callers above, since lent lists hold them (C interface: lists of u16).
fn label(kind: u16, inside: bool, x: u8, y: u8) -> u8
    ensures { result ≡ rule (kind_at kind) inside x y }
{
    match kind {
        0 => u8::from(inside),
        1..=4 => u8::from(meaning(kind - 1, x != 0, y != 0)),
        5..=8 => raked_left(kind - 5, x != 0),
        9..=12 => raked_right(kind - 9, x != 0),
        13 => u8::from(pick(x, y != 0)),
        _ => compose(x, y),
    }
}

// How many leaves and how many nodes a tree has.
#[derive(Clone, Copy, Drop)]
pub struct Size {
    pub leaves: usize,
    pub nodes: usize,
}

// The table of rules has so many entries.
pub const RULES: usize = 256;

// The links: each node's parent; from HEADS on the first leaf of each shape, and from NEXTS on the next leaf of each leaf's shape.
// Kept: 65535 is no node here, as in the records (`absent`): `Parents` and `Chains` say it, and an array of options would be twice as long.
pub const HEADS: usize = NODES;

pub const NEXTS: usize = HEADS + 256;

pub const LINKS: usize = NEXTS + 1024;

// A dwarf tree with all that a pass over it looks up.
#[derive(Clone, Copy, Drop)]
pub struct DwarfTree<'a> {
    pub rules: &'a [u8; RULES],
    pub records: &'a Records,
    pub size: Size,
    pub links: &'a [u16; LINKS],
}

// What each kind makes of two labels, worked out once.
pub fn fill_rules(rules: &mut [u8; RULES])
    ensures { Rules rules.new }
{
    for i in 0..256u16 {
        rules[usize::from(i)] = label(i / 16, false, (i / 4 % 4) as u8, (i % 4) as u8);
    }
}

// A label by kind, with every shape outside: looked up where it is listed.
fn rule_of(rules: &[u8; RULES], kind: u16, x: u8, y: u8) -> u8
    requires { Rules rules.now }
    ensures { result ≡ rule (kind_at kind) false x y }
{
    if kind < 16 && x < 4 && y < 4 {
        return rules[usize::from(kind) * 16 + usize::from(x) * 4 + usize::from(y)];
    }
    label(kind, false, x, y)
}

// The label of node i, 0 where there is no such node.
fn label_at(labels: &[u8; NODES], i: u16) -> u8
    ensures { result ≡ get_or labels.now i 0 }
{
    labels.get(usize::from(i)).copied().unwrap_or(0)
}

// The label of node i worked out from its children's, with every shape outside.
pub fn work(rules: &[u8; RULES], records: &Records, labels: &[u8; NODES], i: usize) -> u8
    requires { Rules rules.now × (i < NODES) }
    ensures { result ≡ label_of outside labels.now (rec_at records.now.kinds records.now.firsts records.now.seconds i) }
{
    let x = label_at(labels, records.firsts[i]);
    let y = label_at(labels, records.seconds[i]);
    rule_of(rules, records.kinds[i], x, y)
}

// All labels worked out afresh in rising order, with every shape outside.
pub fn fill_labels(rules: &[u8; RULES], records: &Records, size: Size, labels: &mut [u8; NODES])
    requires { Rules rules.now × Shaped records.now.kinds records.now.firsts records.now.seconds size.leaves size.nodes }
    ensures { take size.nodes labels.new ≡ afresh outside (recs records.now.kinds records.now.firsts records.now.seconds 0 size.nodes) }
{
    for j in 0..size.nodes {
        labels[j] = work(rules, records, labels, j);
    }
}

// Stores v at i, where there is such an entry.
pub fn set_entry(list: &mut [u16], i: u16, v: u16)
    ensures { list.new ≡ set list.old i v }
{
    let i = usize::from(i);
    if i < list.len() {
        list[i] = v;
    }
}

// Node j entered as the parent of two nodes.
fn adopt_both(links: &mut [u16; LINKS], first: u16, second: u16, j: u16)
    ensures { links.new ≡ adopted j (first ∷ second ∷ []) links.old }
{
    set_entry(links, first, j);
    set_entry(links, second, j);
}

// Node j entered as the parent of the children of its record.
fn adopt(links: &mut [u16; LINKS], kind: u16, first: u16, second: u16, j: u16)
    ensures { links.new ≡ adopted j (children (rec_of (entry kind first second))) links.old }
{
    match kind {
        0 => {}
        5..=12 => set_entry(links, first, j),
        _ => adopt_both(links, first, second, j),
    }
}

// The parent of each node, in one pass from right to left, where none is entered yet. The leaves of the shapes stay.
fn fill_parents(records: &Records, size: Size, links: &mut [u16; LINKS])
    requires { Shaped records.now.kinds records.now.firsts records.now.seconds size.leaves size.nodes × Bare links.old }
    ensures parents { Parents records.now.kinds records.now.firsts records.now.seconds size.nodes links.new }
    ensures above { Above links.old links.new }
{
    for j in (0..size.nodes).rev() {
        adopt(
            links,
            records.kinds[j],
            records.firsts[j],
            records.seconds[j],
            j as u16,
        );
    }
}

// The first leaf of each shape and the next leaf of each leaf's shape, in one pass from right to left; no parent is entered yet.
fn fill_chains(records: &Records, size: Size, links: &mut [u16; LINKS])
    requires { Shaped records.now.kinds records.now.firsts records.now.seconds size.leaves size.nodes }
    ensures { Chains records.now.kinds records.now.firsts records.now.seconds size.leaves size.nodes links.new × Bare links.new }
{
    *links = [65535; LINKS];
    for j in (0..size.leaves).rev() {
        let s = usize::from(records.firsts[j]);
        links[NEXTS + j] = links[HEADS + s];
        links[HEADS + s] = j as u16;
    }
}

// All links of the nodes.
#[tactic(auto, using(crate::proofs::Fills::chains_stay))]
pub fn fill_links(records: &Records, size: Size, links: &mut [u16; LINKS])
    requires { Shaped records.now.kinds records.now.firsts records.now.seconds size.leaves size.nodes }
    ensures parents { Parents records.now.kinds records.now.firsts records.now.seconds size.nodes links.new }
    ensures chains { Chains records.now.kinds records.now.firsts records.now.seconds size.leaves size.nodes links.new }
{
    fill_chains(records, size, links);
    fill_parents(records, size, links);
}
