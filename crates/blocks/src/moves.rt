// The bits of a block's moves: the lowest six are those of the lane's own number, the others those of the block.
ghost use Rattle.std.specs.Prelude.{ℕ, ◌+◌, ◌/◌, ◌^◌, ◌<◌, ◌≤◌, ◌≡◌};
ghost use Rattle.bits.specs.Bit.{odd};
ghost use Rattle.net.specs.InOrder.{variables};
ghost use Rattle.net.specs.Net.{with_move};
ghost use Rattle.blocks.specs.Evaluated.{put_first};
ghost use Rattle.blocks.specs.Lane.{width, lane, move_in, lits_in};

use crate::words::put_both;
use crate::{LITERALS, is_lane};

// Bit i of each lane's own number.
const OWN_BITS: [u64; 6] = [
    0xaaaa_aaaa_aaaa_aaaa,
    0xcccc_cccc_cccc_cccc,
    0xf0f0_f0f0_f0f0_f0f0,
    0xff00_ff00_ff00_ff00,
    0xffff_0000_ffff_0000,
    0xffff_ffff_0000_0000,
];

// Puts variable 0 and the bits of each lane's move, of n variables in all.
pub(crate) fn put_move(words: &mut [u64; LITERALS], block: usize, n: usize)
    requires { n ≤ variables }
    ensures { (bits j : ℕ) → n ≤ bits + 1 → j < width → lits_in words.new j
        ≡ put_first n (with_move bits (move_in block j)) (lits_in words.old j) }
{
    for v in 0..n {
        put_both(words, v, variable_word(block, v));
    }
}

// The word of a variable: 0 is false, 1 + i bit i of a move.
fn variable_word(block: usize, v: usize) -> u64
    ensures { (bits j : ℕ) → v ≤ bits → j < width → lane result j ≡ with_move bits (move_in block j) v }
{
    if v == 0 { 0 } else { bit_word(block, v - 1) }
}

// Bit i of each lane's move.
fn bit_word(block: usize, i: usize) -> u64
    ensures { (j : ℕ) → j < width → lane result j ≡ odd (move_in block j / 2 ^ i) }
{
    if i < 6 {
        OWN_BITS[i]
    } else if is_lane(block as u64, i - 6) {
        u64::MAX
    } else {
        0
    }
}
