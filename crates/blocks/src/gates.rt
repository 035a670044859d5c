// The gates of a net, one after the other: two words looked up as the operands stand, their and, and its inverse.
ghost use Rattle.std.specs.Prelude.{ℕ, ◌*◌, ◌-◌, ◌<◌, ◌≤◌, ◌≡◌, take};
ghost use Rattle.net.specs.InOrder.{variables};
ghost use Rattle.blocks.specs.Evaluated.{put_gates};
ghost use Rattle.blocks.specs.Lane.{width, lits_in};

use crate::LITERALS;
use crate::words::{place, put_both};

// Puts the gates whose operands these are, as many as there are words for. Nothing is tested.
pub(crate) fn put_gates(words: &mut [u64; LITERALS], operands: &[u16], first: usize)
    requires { first ≤ variables }
    ensures { (j : ℕ) → j < width → lits_in words.new j
        ≡ put_gates (take (2 * (variables - first)) operands.now) first (lits_in words.old j) }
{
    let n = (operands.len() / 2).min(LITERALS / 2 - first);
    for i in 0..n {
        let a = words[place(operands[2 * i])];
        let b = words[place(operands[2 * i + 1])];
        put_both(words, first + i, a & b);
    }
}
