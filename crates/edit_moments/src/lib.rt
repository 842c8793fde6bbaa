// The edit that acts next in a run: the node of its position and its operation.
#![tactic(auto)]

ghost use Rattle.edit_moments.specs.Waiting.{Readable, NextSays};

use contraction::CODES;
use edits::{EditLists, FIRST_OPERATION};

// An edit: its node, and the operation that comes there.
#[derive(Clone, Copy, Drop)]
pub struct Next {
    pub node: usize,
    pub operation: u16,
}

// Edit k, if it is there and its moment has come, where i toggles have acted; none before the next toggle.
pub fn next_edit(edits: EditLists<'_>, places: &[u16; CODES], k: usize, i: usize) -> Option<Next>
    requires { Readable edits.moments.now edits.positions.now edits.codes.now k }
    ensures { let e = edits.entry in NextSays e.moments.now e.positions.now e.codes.now places.now k i result }
{
    let &moment = edits.moments.get(k)?;
    if (i as u64) < moment {
        return None;
    }
    let node = places[usize::from(edits.positions[k])];
    Some(Next {
        node: usize::from(node),
        operation: edits.codes[k] - FIRST_OPERATION,
    })
}
