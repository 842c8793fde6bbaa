// Definitions and their theorems: one operation of a formula changed, and what that changes in its dwarf tree. See specs/.
#![tactic(auto)]

// The codes from the first one on are operations, up to the last one.
pub const FIRST_OPERATION: u16 = 0xFFF0;

pub const LAST_OPERATION: u16 = 0xFFF3;

// Edits as three lists bring them: after how many toggles, the postfix position from 0, the new code.
#[derive(Clone, Copy, Drop)]
pub struct EditLists<'a> {
    pub moments: &'a [u64],
    pub positions: &'a [u16],
    pub codes: &'a [u16],
}
