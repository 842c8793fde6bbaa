// A sheet's fields: two bytes as a number, and where a field ends. What a sheet is, and what reading it gives: specs/.
#![tactic(auto)]

ghost use Rattle.std.specs.Prelude.{◌≡◌, ◌+◌, ◌≤◌, ◌<◌, length};
ghost use Rattle.sheet.specs.Sheet.{two_bytes_at, past_at};

// Two sheets together have at most so many names, a name at most so many bytes, and so has a formula.
pub const NAMES: usize = 256;

pub const NAME_BYTES: usize = 32;

pub const FORMULA_BYTES: usize = 4094;

// Two bytes, high byte first.
pub fn two(s: &[u8], at: usize) -> usize
    requires { at + 1 < length s.now }
    ensures { (result ≡ two_bytes_at s.now at) × (result < 65536) }
{
    usize::from(u16::from_be_bytes([s[at], s[at + 1]]))
}

// The offset past the field whose tag is at `at`, which is all there.
#[tactic(auto, unfolding(crate::specs::Sheet::past_at, crate::specs::Sheet::length_at))]
pub fn past(s: &[u8], at: usize) -> usize
    requires { past_at s.now at ≤ length s.now }
    ensures { (result ≡ past_at s.now at) × (at + 3 ≤ result) × (result ≤ length s.now) }
{
    at + 3 + two(s, at + 1)
}
