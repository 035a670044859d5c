// Blocks of moves: a net evaluated for 64 moves at once, lane j of block b the move 64 × b + j (01, "The game").
#![tactic(auto)]

mod gates;
mod moves;
mod words;

ghost use Rattle.std.specs.Prelude.{ℕ, min, ◌<◌, ◌≡◌, length};
ghost use Rattle.circuit.specs.Limits.{base};
ghost use Rattle.net.specs.Net.{net_nexts, net_operands};
ghost use Rattle.blocks.specs.Evaluated.{evaluated, error_in, next_in, first_gate};
ghost use Rattle.blocks.specs.Lane.{width, lane, move_in, lits_in};

use below::{behind, get_or};
use circuit::Circuit;
use gates::put_gates;
use moves::put_move;
use net::counts;
use words::place;

// A word for each literal of a net.
pub const LITERALS: usize = 2048;

// Evaluates a net for the moves of a block. What the words hold before isn't read where the net is in order.
#[tactic(auto, using(crate::proofs::Laws::LookUp::counted))]
pub fn evaluate(net: &[u16], block: usize, words: &mut [u64; LITERALS])
    ensures { (j : ℕ) → j < width → lits_in words.new j ≡ evaluated net.now (move_in block j) (lits_in words.old j) }
{
    let first = first_gate(net);
    put_move(words, block, first);
    put_gates(words, operands(net), first);
}

// Whether a lane of a word is true; a lane that isn't there is false.
#[tactic(auto, using(crate::proofs::Laws::Lane::lane_is, crate::proofs::Laws::Lane::lane_past))]
pub fn is_lane(word: u64, j: usize) -> bool
    ensures { result ≡ lane word j }
{
    j < 64 && (word >> j) % 2 == 1
}

// The error in a lane.
#[tactic(auto, unfolding(crate::specs::Evaluated::error_in, crate::specs::Lane::lits_in, net::specs::Net::net_output))]
pub fn error_in(net: &[u16], words: &[u64], j: usize) -> bool
    ensures { result ≡ error_in net.now (lits_in words.now j) }
{
    is_lane(get_or(words, place(get_or(net, 3, 0)), 0), j)
}

// The next state in a lane, of no more latches than a circuit may have.
#[tactic(auto, using(crate::proofs::Laws::LookUp::bits_from_top))]
pub fn next_in(net: &[u16], words: &[u64], j: usize) -> u16
    ensures { result ≡ next_in net.now (lits_in words.now j) }
{
    let mut state = 0;
    for k in (0..nexts(net)).rev() {
        let word = get_or(words, place(get_or(net, 4 + k, 0)), 0);
        state = 2 * state + u16::from(is_lane(word, j));
    }
    state
}

// The first variable of a gate, behind the bits of a move.
#[tactic(auto, using(crate::proofs::Laws::LookUp::counted), unfolding(crate::specs::Evaluated::first_gate, net::specs::Net::move_bits))]
fn first_gate(net: &[u16]) -> usize
    ensures { result ≡ first_gate net.now }
{
    let bits = counts::controls(net) + counts::readings(net) + counts::latches(net);
    (1 + bits).min(LITERALS / 2)
}

// The operands of the gates, behind the next-state literals.
#[tactic(auto, using(crate::proofs::Laws::LookUp::counted))]
fn operands(net: &[u16]) -> &[u16]
    ensures { result.now ≡ net_operands net.now }
{
    behind(net, 4 + counts::latches(net))
}

// How many next-state literals are read.
#[tactic(auto, using(crate::proofs::Laws::LookUp::nexts_counted))]
fn nexts(net: &[u16]) -> usize
    ensures { result ≡ min base.latches (length (net_nexts net.now)) }
{
    let latches = counts::latches(net).min(Circuit::LATCHES);
    latches.min(net.len().saturating_sub(4))
}
