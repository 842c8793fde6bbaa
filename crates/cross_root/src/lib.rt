// A whole number's square root, rounded down.
#![tactic(auto)]

ghost use Rattle.cross_root.specs.Root.{Root};

// Newton's iteration from above. It begins within twice the root, so that few divisions are left; isqrt of the library takes 32 steps.
pub fn root(n: u64) -> u64
    ensures { Root n result }
{
    if n == 0 {
        return 0;
    }
    let mut r: u64 = 1 << (n.ilog2() / 2 + 1);
    let mut q = n / r;
    while q < r {
        r = (r + q) / 2;
        q = n / r;
    }
    r
}
