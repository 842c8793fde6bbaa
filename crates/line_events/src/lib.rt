// The events of a word at once, where each of its columns stands alone; what a block's events are is in specs/Events.antt.
#![tactic(auto)]

ghost use Rattle.std.specs.Prelude.{◌≡◌, ℕ, true, ◌++◌, ◌+◌, ◌*◌, ◌≤◌, ◌<◌, length};
ghost use Rattle.lines.specs.AtIndex.{group_ends_at};
ghost use Rattle.word_bits.specs.Words.{bit};
ghost use Rattle.line_lists.specs.Block.{wide, columns};
ghost use Rattle.line_events.specs.Noted.{NoteRoom, rises_at, AllHold, GoesOn, Before, FirstOn, some_if, said_events, RoomFrom, SweptAlone, Noted, WordPart};

use line_lists::{COLUMNS, EVENTS};

// Whether there is metal after the columns gone through, and how many events they have.
// Kept: a count beside the list of events, which is lent whole: fixed memory, and an event that there may be is written with no branch.
#[derive(Drop)]
pub struct Found {
    pub metal: bool,
    pub count: u16,
}

// The position at i is below the next.
#[tactic(auto, using(crate::proofs::EndLaws::rises_there))]
fn rises(at: &[i32], i: usize) -> bool
    requires { i + 1 < length at.now }
    ensures { result ≡ rises_at at.now i }
{
    at[i] < at[i + 1]
}

// The crossing at i is the last at its position: both questions are asked in any case, so that no branch is needed.
#[tactic(auto, using(crate::proofs::EndLaws::ends_there))]
fn ends(line: &[u32], at: &[i32], i: usize) -> bool
    requires { (i + 1 < length line.now) × (length at.now ≡ length line.now) }
    ensures { result ≡ group_ends_at line.now at.now i }
{
    (line[i + 1] != line[i]) | rises(at, i)
}

// Whether something holds of each of the crossings from i to e.
fn all_hold<F: Fn(usize) -> bool>(i: usize, e: usize, holds: F) -> bool
    requires { (x : ℕ) → i ≤ x → x < e → F.pre holds x }
    ensures { result ≡ true → (x : ℕ) → i ≤ x → x < e → F.post holds x true }
{
    let mut some: u32 = 0;
    // Kept: all() ends at the first no; with no way out before the end many are looked at at once.
    for x in i..e {
        some |= u32::from(!holds(x));
    }
    some == 0
}

// Whether each of the crossings from i to e is the last at its position: by the positions alone where they may all be of one line. A no may be wrong: the list's last crossings, which have none after them to be compared with, are not looked at so.
pub fn all_alone(line: &[u32], at: &[i32], i: usize, e: usize, one_line: bool) -> bool
    requires { (i ≤ e) × (e ≤ length line.now) × (length at.now ≡ length line.now) }
    ensures { AllHold (group_ends_at line.now at.now) i e result }
{
    if e == line.len() {
        return false;
    }
    if one_line {
        return all_hold(i, e, |x| rises(at, x));
    }
    all_hold(i, e, |x| ends(line, at, x))
}

// What goes on past each column of a word where each stands alone: what its bit says, and nothing past a line's end.
#[tactic(auto, using(crate::proofs::BitLaws::goes_on))]
fn going_on(w: u64, y: u64) -> u64
    ensures { GoesOn w y result }
{
    w & (w ^ y)
}

// The metal before each column of such a word.
fn before(w: u64, y: u64, metal: bool) -> u64
    ensures { Before w y metal result }
{
    going_on(w, y) << 1 | u64::from(metal)
}

// The first m bits.
#[tactic(auto, using(crate::proofs::BitLaws::first_on))]
fn first_bits(m: usize) -> u64
    requires { (0 < m) × (m ≤ 64) }
    ensures { FirstOn m result }
{
    u64::MAX >> (64 - m)
}

// v is one event more, if there is one: it is written in any case, so that no branch is needed.
#[tactic(auto, using(crate::proofs::SaidLaws::noted_if))]
fn note_if(events: &mut [u16; EVENTS], v: usize, is: bool, count: u16) -> u16
    requires { NoteRoom v count events.old }
    ensures { Noted (some_if is v) count events.old result events.new }
{
    events[usize::from(count)] = v as u16;
    count + u16::from(is)
}

// Column b of word k: whether metal changes, and whether it goes on past a line's end.
#[tactic(auto, using(crate::proofs::SaidLaws::room_after, crate::proofs::SaidLaws::noted_said))]
fn step_alone(
    changes: u64,
    opens: u64,
    k: usize,
    b: usize,
    events: &mut [u16; EVENTS],
    count: u16,
) -> u16
    requires { (b < 64) × (64 * k + b < columns) × RoomFrom (64 * k + b) events.old count }
    ensures { Noted (some_if (bit changes b) (64 * k + b) ++ some_if (bit opens b) (columns + (64 * k + b))) count events.old result events.new }
{
    let c = 64 * k + b;
    let more = note_if(events, c, word_bits::is_on(changes, b), count);
    note_if(events, COLUMNS + c, word_bits::is_on(opens, b), more)
}

// The events of word k, which two words say: where metal changes, and where it goes on past a line's end.
fn note_said(changes: u64, opens: u64, k: usize, events: &mut [u16; EVENTS], count: u16) -> u16
    requires { (k < wide) × RoomFrom (64 * k) events.old count }
    ensures { Noted (said_events changes opens k 64) count events.old result events.new }
{
    let mut d = changes | opens;
    let mut n = count;
    // Kept: no iterator goes through the bits of a word.
    while 0 < d {
        n = step_alone(changes, opens, k, word_bits::lowest(d), events, n);
        d = word_bits::others(d);
    }
    n
}

// The same where none goes on past a line's end: each bit is an event.
fn note_changes(changes: u64, k: usize, events: &mut [u16; EVENTS], count: u16) -> u16
    requires { (k < wide) × RoomFrom (64 * k) events.old count }
    ensures { Noted (said_events changes 0 k 64) count events.old result events.new }
{
    let mut d = changes;
    let mut n = usize::from(count);
    // Kept: as above.
    while 0 < d {
        events[n] = (64 * k + word_bits::lowest(d)) as u16;
        n += 1;
        d = word_bits::others(d);
    }
    n as u16
}

#[tactic(auto, using(crate::proofs::SaidLaws::noted_changes))]
fn note_word(changes: u64, opens: u64, k: usize, events: &mut [u16; EVENTS], count: u16) -> u16
    requires { (k < wide) × RoomFrom (64 * k) events.old count }
    ensures { Noted (said_events changes opens k 64) count events.old result events.new }
{
    if opens == 0 {
        return note_changes(changes, k, events, count);
    }
    note_said(changes, opens, k, events, count)
}

// The columns of word k before e, each of which stands alone. What there is before each is known at once: no event waits for the last.
#[tactic(auto, using(crate::proofs::AloneLaws::swept_alone))]
pub fn sweep_alone(
    w: u64,
    y: u64,
    k: usize,
    e: usize,
    events: &mut [u16; EVENTS],
    f: Found,
) -> Found
    requires { WordPart k e × (k < wide) × RoomFrom (64 * k) events.old f.count }
    ensures { SweptAlone w y k e events.old f events.new result }
{
    let there = first_bits(e - 64 * k);
    let changes = (w ^ before(w, y, f.metal)) & there;
    let opens = w & y & there;
    let count = note_word(changes, opens, k, events, f.count);
    Found {
        metal: word_bits::is_on(going_on(w, y), e - 1 - 64 * k),
        count,
    }
}

// Whether more than three columns of a word may be events: then it pays to look at all of its crossings.
pub fn many_noisy(w: u64, y: u64, metal: bool) -> bool {
    let opens = w & y;
    word_bits::others(word_bits::others(word_bits::others(w ^ before(w, y, metal) | opens))) != 0
}
