// The judgement of an order that mixes two foundries' toggle lists.
#![tactic(auto)]

ghost use Rattle.std.specs.Prelude.{◌≡◌};
ghost use Rattle.order_mixing.specs.Order.{mixes as mixes_of};

// Whether an order mixes lists of these lengths.
pub fn mixes(order: &[u8], first: usize, second: usize) -> bool
    ensures { result ≡ mixes_of order.now first second }
{
    let mut seconds = 0;
    for &turn in order {
        if 1 < turn {
            return false;
        }
        seconds += usize::from(turn);
    }
    order.len() - seconds == first && seconds == second
}
