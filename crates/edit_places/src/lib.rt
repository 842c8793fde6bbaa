// The node of each position of a formula: one pass over the codes, one over the records, one that enters the nodes at their positions.
#![tactic(auto)]

ghost use Rattle.std.specs.Prelude.{◌≡◌, ◌+◌, ◌<◌, ◌≤◌, length, get_or};
ghost use Rattle.contraction.specs.Entries.{kind_at};
ghost use Rattle.edits.specs.Spots.{works};
ghost use Rattle.edit_places.specs.Places.{Buildable, PlacesFilled};
ghost use Rattle.edit_places.specs.Standing.{met, view, joined_starts, joined_ups, ScanDone, spot_of, Falls, StandTo, entered, EnteredTo};

use contraction::{CODES, NODES, Records};
use edits::FIRST_OPERATION;
use labels::{Size, set_entry};

// Entry i, 0 where there is none.
fn read(list: &[u16; NODES], i: u16) -> u16
    ensures { result ≡ get_or list.now i 0 }
{
    list.get(usize::from(i)).copied().unwrap_or(0)
}

// The operation at position j: it is over its two operands.
fn join_ups(starts: &[u16; NODES], ups: &mut [u16; NODES], j: u16)
    ensures { ups.new ≡ joined_ups starts.now ups.old j }
{
    let right = j.saturating_sub(1);
    let left = read(starts, right).saturating_sub(1);
    set_entry(ups, right, j);
    set_entry(ups, left, j);
}

// It begins where its left operand does.
fn join_starts(starts: &mut [u16; NODES], j: u16)
    ensures { starts.new ≡ joined_starts starts.old j }
{
    let right = j.saturating_sub(1);
    let left = read(starts, right).saturating_sub(1);
    let s = read(starts, left);
    set_entry(starts, j, s);
}

// One code at position j: the next leaf stands there, or an operation that is over its operands.
fn meet(
    c: u16,
    j: u16,
    next: u16,
    starts: &mut [u16; NODES],
    ups: &mut [u16; NODES],
    spots: &mut [u16; NODES],
) -> u16
    requires { next < NODES }
    ensures j_after { view starts.new ups.new spots.new result (j + 1)
        ≡ met (view starts.old ups.old spots.old next j) c }
    ensures upper_bound { result ≤ next + 1 }
{
    if c < FIRST_OPERATION {
        set_entry(starts, j, j);
        set_entry(spots, next, j);
        next + 1
    } else {
        join_ups(starts, ups, j);
        join_starts(starts, j);
        next
    }
}

// The codes gone through: which operation is over each operand, and where the leaves stand.
fn scan(codes: &[u16], ups: &mut [u16; NODES], spots: &mut [u16; NODES])
    requires { length codes.now < CODES }
    ensures { ScanDone codes.now ups.new spots.new }
{
    *ups = [0; NODES];
    *spots = [0; NODES];
    let mut starts = [0u16; NODES];
    let mut next: u16 = 0;
    for (j, &c) in codes.iter().enumerate() {
        next = meet(c, j as u16, next, &mut starts, ups, spots);
    }
}

// The kind is E or R.
fn operates(kind: u16) -> bool
    ensures { result ≡ works (kind_at kind) }
{
    matches!(kind, 1..=12)
}

// Where a node stands, by its kind and its first.
fn spot(kind: u16, first: u16, ups: &[u16; NODES], spots: &[u16; NODES]) -> u16
    ensures { result ≡ spot_of ups.now spots.now kind first }
{
    let x = read(spots, first);
    if operates(kind) { read(ups, x) } else { x }
}

// Where each node stands, in rising order after the leaves.
fn stand(records: &Records, size: Size, ups: &[u16; NODES], spots: &mut [u16; NODES])
    requires { Falls records.now.firsts size.leaves size.nodes }
    ensures { StandTo records.now.kinds records.now.firsts ups.now spots.old size.leaves size.nodes spots.new }
{
    for i in size.leaves..size.nodes {
        spots[i] = spot(records.kinds[i], records.firsts[i], ups, spots);
    }
}

// Node i entered at its position, if it is E or R.
fn enter_one(kind: u16, spot: u16, i: u16, places: &mut [u16; CODES])
    ensures { places.new ≡ entered kind spot i places.old }
{
    if operates(kind) {
        set_entry(places, spot, i);
    }
}

// Each node entered at its position.
fn enter_all(records: &Records, spots: &[u16; NODES], nodes: usize, places: &mut [u16; CODES])
    requires { nodes ≤ NODES }
    ensures { EnteredTo records.now.kinds spots.now nodes places.new }
{
    *places = [65535; CODES];
    for i in 0..nodes {
        enter_one(records.kinds[i], spots[i], i as u16, places);
    }
}

// The node of each position, from the codes and the records of a formula.
pub fn fill_places(codes: &[u16], records: &Records, size: Size, places: &mut [u16; CODES])
    requires codes_len { length codes.now < CODES }
    requires buildable { let r = records.now in Buildable codes.now r.kinds r.firsts r.seconds size.leaves size.nodes }
    ensures { let r = records.now in PlacesFilled codes.now r.kinds r.firsts r.seconds size.leaves size.nodes places.new }
{
    let mut ups = [0u16; NODES];
    let mut spots = [0u16; NODES];
    scan(codes, &mut ups, &mut spots);
    stand(records, size, &ups, &mut spots);
    enter_all(records, &spots, size.nodes, places);
}
