// Their wall list against one wall of ours after another.
#![tactic(auto)]

ghost use Rattle.std.specs.Prelude.{◌≡◌, [], ◌∷◌, ◌<◌, length};
ghost use Rattle.line_opinion.specs.Judging.{theirs, same_place, fits};
ghost use Rattle.line_opinion.specs.Eating.{lists_of, entry_at, needed, Ate};

pub mod entries;

use entries::Entries;

// A wall of ours, or the part of it that their list has still to give.
#[derive(Clone, Copy, Drop)]
pub struct Need {
    pub line: u32,
    pub from: i32,
    pub to: i32,
}

fn same_place(a: i32, b: i32) -> bool
    ensures { result ≡ same_place a b }
{
    a == b
}

// Their entry j begins the wall, or the part of it, that is needed next, and ends within it.
fn fits_at(list: Entries<'_>, j: usize, v: Need) -> bool
    requires { j < length list.lines.now }
    ensures { result ≡ fits (needed v) (entry_at (lists_of list.entry) j) }
{
    let start = list.starts[j];
    let end = list.ends[j];
    list.lines[j] == v.line && same_place(start, v.from) && start < end && end <= v.to
}

// One wall of ours against their entries from `first` on: the entry after it, or the first after which no right list could begin that way.
fn eat(list: Entries<'_>, first: usize, wall: Need) -> Result<usize, usize>
    ensures { Ate (lists_of list.entry) first (needed wall ∷ []) result }
{
    let mut v = wall;
    for j in first..list.lines.len() {
        if !fits_at(list, j, v) {
            return Err(j);
        }
        let end = list.ends[j];
        if v.to <= end {
            return Ok(j + 1);
        }
        v.from = end;
    }
    Err(first.max(list.lines.len()))
}

// Walls of ours against their entries from `first` on.
pub fn eat_all(list: Entries<'_>, first: usize, ours: Entries<'_>) -> Result<usize, usize>
    ensures { Ate (lists_of list.entry) first (theirs (lists_of ours.entry)) result }
{
    let mut next = first;
    for k in 0..ours.lines.len() {
        let wall = Need {
            line: ours.lines[k],
            from: ours.starts[k],
            to: ours.ends[k],
        };
        next = eat(list, next, wall)?;
    }
    Ok(next)
}
