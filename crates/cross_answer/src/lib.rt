// One line's answer, from what is gathered of its shapes to the lists that are lent.
#![tactic(auto)]

ghost use Rattle.std.specs.Prelude.{◌≡◌, List, map, ℕ, ◌≤◌, length};
ghost use Rattle.outcome.specs.Lent.{filled};
ghost use Rattle.cross_order.specs.Order.{rising};
ghost use Rattle.cross_cuts.specs.Cuts.{Cut, answered};
ghost use Rattle.cross_cuts.specs.Keys.{Held, Complete};
ghost use Rattle.cross_answer.specs.Answer.{made_lists, Crossed};
ghost use Rattle.cross_answer.specs.Giving.{position_in, shape_in, Reads, LongEnough, Written, InRange};

use outcome::{Fault, room};

// A key is a position's rank times the number of shapes, and a shape.
const SHAPES: u64 = cross_cuts::SHAPES as u64;

const RANKS: u64 = 1 << 32;

// How many entries are given: in the start row, and in each of positions and shapes.
#[derive(Clone, Copy, Debug, PartialEq, Eq)]
pub struct Counts {
    pub shapes: usize,
    pub crossings: usize,
}

fn position_in(key: u64) -> i32
    ensures { result ≡ position_in key }
{
    cross_ranks::position_of((key / SHAPES % RANKS) as u32)
}

fn shape_in(key: u64) -> u16
    ensures { result ≡ shape_in key }
{
    (key % SHAPES) as u16
}

// Writes what is read of each key, from the list's start.
fn write_each<T: Copy, F: Fn(u64) -> T>(keys: &[u64], entries: &mut [T], read: F)
    requires callable { F.IsAlwaysCallable read }
    requires room { length keys.now ≤ length entries.old }
    ensures { (of : ℕ → T) → Reads (F.post read) of → entries.new ≡ filled (map of keys.now) entries.old }
{
    for (i, &key) in keys.iter().enumerate() {
        entries[i] = read(key);
    }
}

// Gives the start row.
// Kept: byte by byte. For copy_from_slice the archive would need memmove from outside.
fn write_starts(bytes: &[u8], starts: &mut [u8])
    requires { length bytes.now ≤ length starts.old }
    ensures { starts.new ≡ filled bytes.now starts.old }
{
    for (i, &byte) in bytes.iter().enumerate() {
        starts[i] = byte;
    }
}

fn order_with<const N: usize>(keys: &mut [u64])
    requires fits { length keys.old ≤ N }
    requires small { N ≤ 512 }
    ensures { keys.new ≡ rising keys.old }
{
    let mut spare = [0u64; N];
    cross_order::sort(keys, &mut spare);
}

// Puts keys into order. Most lines have so few that they need no spare array; for some more a shorter one is quicker to make.
fn order(keys: &mut [u64])
    requires { length keys.old ≤ 512 }
    ensures { keys.new ≡ rising keys.old }
{
    match keys.len() {
        0..=8 => cross_order::insert_all(keys),
        9..=32 => order_with::<32>(keys),
        33..=128 => order_with::<128>(keys),
        _ => order_with::<512>(keys),
    }
}

// Kept: three answer lists and not one struct, since C lends them one by one, and of lists that are put into a struct of `&mut` a contract can't say
// what they hold afterwards.
// Puts the keys into order and writes the lists.
pub fn write(
    n: usize,
    m: usize,
    bytes: &[u8],
    keys: &mut [u64],
    starts: &mut [u8],
    positions: &mut [i32],
    shapes: &mut [u16],
)
    requires { Held (length bytes.now) bytes.now keys.old n m × (n ≤ 256) × LongEnough n m (made_lists starts.old positions.old shapes.old) }
    ensures { Written n m bytes.now keys.old (made_lists starts.old positions.old shapes.old) (made_lists starts.new positions.new shapes.new) }
{
    order(&mut keys[..m]);
    write_starts(&bytes[..n], starts);
    write_each(&keys[..m], positions, position_in);
    write_each(&keys[..m], shapes, shape_in);
}

// Gives what is gathered of n shapes with m crossings, where there is room in each list: 9 for start row, positions, shapes in turn.
pub fn give(
    n: usize,
    m: usize,
    bytes: &[u8],
    keys: &mut [u64],
    starts: &mut [u8],
    positions: &mut [i32],
    shapes: &mut [u16],
) -> Result<Counts, Fault>
    requires { Held (length bytes.now) bytes.now keys.old n m × (n ≤ 256) }
    ensures { (number : ℕ) (cuts : List Cut) → Complete (length bytes.now) number cuts bytes.now keys.old n m → InRange cuts
        → Crossed (answered number cuts (length starts.old) (length positions.old) (length shapes.old))
        (made_lists starts.old positions.old shapes.old) result (made_lists starts.new positions.new shapes.new) }
{
    room(n, starts.len())?;
    room(m, positions.len())?;
    room(m, shapes.len())?;
    write(n, m, bytes, keys, starts, positions, shapes);
    Ok(Counts {
        shapes: n,
        crossings: m,
    })
}
