// A formula's codes, read from its bytes and laid with the operation first, and codes put into bytes: document 02, K10.
#![tactic(auto)]

ghost use Rattle.std.specs.Prelude.{◌≡◌, ◌+◌, ◌-◌, ◌*◌, ◌≤◌, ◌<◌, length};
ghost use Rattle.std.proofs.lemmas.List.Edits.{sets};
ghost use Rattle.sheet.specs.Sheet.{codes_of};
ghost use Rattle.sheet_codes.specs.Codes.{CodesFit};
ghost use Rattle.sheet_laying.specs.Bytes.{code_bytes};
ghost use Rattle.sheet_laying.specs.Laid.{Laid};
ghost use Rattle.sheet_laying.specs.Waiting.{Low, Settles};

use contraction::CODES;

// The first code that is an operation's.
const FIRST_OPERATION: usize = 0xFFF0;

// An operation that waits for its left operand alone is held as its code and so much more: past all operations' codes.
const LEFT_ALONE: usize = 4;

const FIRST_LEFT_ALONE: usize = 0xFFF4;

// The operations that wait: how many they are, and the code of the last one, 4 more where it waits for its left operand alone. Where none
// waits, the last one is a number below all operations' codes.
#[derive(Drop)]
struct Held {
    many: usize,
    last: usize,
}

// A formula was laid, and `at` codes are still to be read: the operations that wait for no other operand are laid before it, and the next one
// now waits for its left operand alone.
fn settle(laid: &mut [u16; CODES], at: usize, mut held: Held) -> Held
    requires { (at < 2048) × (at + held.many ≤ 2048) × Low laid.old held.many held.last (2047 - at) }
    ensures { Settles laid.old held.many held.last laid.new result.many result.last at }
{
    // Kept: a while. How many operations are laid shows only from what is read on the way, and no iterator tells that.
    while FIRST_LEFT_ALONE <= held.last {
        held.many -= 1;
        let before = laid[held.many] as usize;
        laid[at + held.many] = (held.last - LEFT_ALONE) as u16;
        held.last = before;
    }
    held.last += LEFT_ALONE;
    held
}

// Lays the formula of these bytes, in postfix order, with the operation first, and answers how many codes it has. Codes are read from the
// last one on and laid from the end; an operation is met before its operands and laid after them. The last one that waits is in hand, and
// those before it wait at the array's front, where as many codes are still to be laid.
pub fn lay_first(formula: &[u8], laid: &mut [u16; CODES]) -> usize
    requires { CodesFit formula.now laid.old }
    ensures { Laid (codes_of formula.now) laid.new result }
{
    let n = formula.len() / 2;
    let mut held = Held { many: 0, last: 0 };
    for at in (0..n).rev() {
        let code = sheet::two(formula, 2 * at);
        if code < FIRST_OPERATION {
            laid[at + held.many] = code as u16;
            held = settle(laid, at, held);
            continue;
        }
        laid[held.many] = held.last as u16;
        held = Held {
            many: held.many + 1,
            last: code,
        };
    }
    n
}

// Puts codes into bytes from offset `at` on, two a code, high byte first.
pub fn put_codes(codes: &[u16], bytes: &mut [u8], at: usize)
    requires { at + 2 * length codes.now ≤ length bytes.old }
    ensures { bytes.new ≡ sets bytes.old at (code_bytes codes.now) }
{
    for (i, &code) in codes.iter().enumerate() {
        let [high, low] = code.to_be_bytes();
        bytes[at + 2 * i] = high;
        bytes[at + 2 * i + 1] = low;
    }
}
