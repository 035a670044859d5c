// The region as bytes (01, "The certificate", kind 2), read off the ranks of a solved circuit: state s at bit s mod 8 of byte s div 8; a bit
// that stands for no state is 0.
#![tactic(auto)]

ghost use Rattle.std.specs.Prelude.{◌≡◌};
ghost use Rattle.region.specs.RegionTable.{region_table};
ghost use Rattle.solver.specs.Over.{rank_zero};

use below::{filled, get_or};
use bits::bytes::put_bit;
use circuit::Circuit;

// The states of rank 0, of so many.
pub fn region_of(ranks: &[u16], states: usize) -> [u8; Circuit::REGION]
    ensures { result ≡ region_table (rank_zero ranks.now) states }
{
    let mut bytes = filled(0);
    for s in 0..states.min(Circuit::STATES) {
        put_bit(&mut bytes, s, get_or(ranks, s, 0) == 0);
    }
    bytes
}
