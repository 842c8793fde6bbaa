// Builds the dwarf tree of a formula from its codes in postfix order: leaves numbered, then rounds while more than one node remains.
#![tactic(auto)]

ghost use Rattle.std.specs.Prelude.{◌≡◌, ◌+◌, ◌≤◌, ◌<◌, length};
ghost use Rattle.formula.specs.Formula.{Formula};
ghost use Rattle.tree_tokens.specs.Tokens.{Long};
ghost use Rattle.tree_dwarf.specs.Dwarfed.{Plans, Planned, Dwarfed};
ghost use Rattle.tree_dwarf.specs.Building.{plant_code, planting_in, PlantedTo, Rooted, RoundTo, ContractedTo, Bounded};

use contraction::{CODES, NODES, Records};
use tree_tokens::{ABSENT, Extent, FIRST_OPERATION, LEAF, Record};

// What a dwarf tree is told by, besides its records.
#[derive(Clone, Copy, Drop)]
pub struct Figures {
    pub leaves: usize,
    pub nodes: usize,
    pub rounds: usize,
    pub height: usize,
}

// How many records there are, and how many rounds made them.
#[derive(Drop)]
struct Done {
    nodes: u16,
    rounds: usize,
}

// One code: a leaf gets the next dwarf node, an operation stays as it is.
#[tactic(auto, using(crate::proofs::PlantLaws::plant_leaf, crate::proofs::PlantLaws::plant_operation))]
fn plant_one(c: u16, i: usize, next: u16, a: &mut [u16; CODES], records: &mut Records) -> u16
    requires i_bound { (i < CODES) × (next < NODES) }
    ensures result_after { (planting_in a.new (i + 1) records.new result ≡ plant_code (planting_in a.old i records.old next) c) × (result ≤ next + 1) }
{
    if c < FIRST_OPERATION {
        let leaf = Record {
            kind: LEAF,
            first: c,
            second: ABSENT,
        };
        tree_tokens::put_token(next, a, i);
        tree_tokens::put_record(leaf, records, next);
        next + 1
    } else {
        tree_tokens::put_token(c, a, i);
        next
    }
}

// The formula's tree with its leaves numbered: how many there are.
fn plant(codes: &[u16], a: &mut [u16; CODES], records: &mut Records) -> u16
    requires { length codes.now ≤ CODES }
    ensures { PlantedTo codes.now a.new records.new result }
{
    let mut next = 0;
    for (i, &c) in codes.iter().enumerate() {
        next = plant_one(c, i, next, a, records);
    }
    next
}

// A round on the tree whose tokens `a` is filled with: rake, then compress. `b` and `st` are room to work in.
fn round(
    a: &mut [u16; CODES],
    b: &mut [u16; CODES],
    st: &mut [u16; CODES],
    records: &mut Records,
    m: Extent,
) -> Extent
    requires lt_n { (1 < m.at) × Rooted a.old m }
    ensures round_to { RoundTo a.old m records.old a.new records.new result }
{
    let raked = tree_rake::rake(&a[..m.at], b, st, records, m.next);
    tree_compress::compress(&b[..raked.at], a, records, raked.next)
}

// Rounds while more than one node remains.
fn contract(a: &mut [u16; CODES], records: &mut Records, planted: Extent) -> Done
    requires { Rooted a.old planted }
    ensures { ContractedTo a.old planted records.old records.new result.nodes result.rounds }
{
    let mut b = [0u16; CODES];
    let mut st = [0u16; CODES];
    let mut m = planted;
    let mut rounds = 0;
    // Kept: rounds go on until one node remains, and no iterator ends so.
    while 1 < m.at {
        m = round(a, &mut b, &mut st, records, m);
        rounds += 1;
    }
    Done {
        nodes: m.next,
        rounds,
    }
}

// Builds the dwarf tree of the formula whose postfix order the codes are.
pub fn build_tree(codes: &[u16], records: &mut Records) -> Figures
    requires codes_few { (length codes.now < CODES) × Planned codes.now }
    ensures long { Long records.new }
    ensures bounded { Bounded result }
    ensures dwarfed { (f : Formula) → Plans f codes.now → Dwarfed f records.new result }
{
    let mut a = [0u16; CODES];
    let leaves = plant(codes, &mut a, records);
    let planted = Extent {
        at: codes.len(),
        next: leaves,
    };
    let done = contract(&mut a, records, planted);
    let nodes = usize::from(done.nodes);
    Figures {
        leaves: usize::from(leaves),
        nodes,
        rounds: done.rounds,
        height: usize::from(tree_height::height(records, nodes)),
    }
}
