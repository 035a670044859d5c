// The lanes of a block of moves that keep in a set of states (01, "The game"): no error, and a next state in the set.
ghost use Rattle.std.specs.Prelude.{◌<◌, ◌≡◌, IfSome};
ghost use Rattle.below.specs.LeastFrom.{least_from};
ghost use Rattle.keeping.specs.Inner.InLane.{lane_number, keeps_in};

use crate::rank_list::Unranked;
use below::front;
use blocks::is_lane;
use circuit::Circuit;

// A lane or a move, by its number, and the state that it leads to.
#[derive(Clone, Copy, Debug, PartialEq, Eq)]
pub struct Found {
    pub number: usize,
    pub lead: u16,
}

impl Unranked<'_> {
    ghost use Rattle.keeping.specs.Unranked.{set_of, number_or};

    // The least lane from one on, below an end, that keeps in these states, and where it leads.
    pub fn keeping_lane(self, error: u64, next: &[u64], from: usize, end: usize) -> Option<Found>
        ensures lane { number_or end result ≡ least_from (keeps_in (set_of self.entry) error next.now) from end }
        ensures within { IfSome result (λ found. found.number < end) }
        ensures lead { IfSome result (λ found. found.lead ≡ lane_number next.now found.number) }
    {
        for lane in from..end {
            if !is_lane(error, lane) {
                let lead = lane_number(next, lane);
                if self.contains(usize::from(lead)) {
                    return Some(Found { number: lane, lead });
                }
            }
        }
        None
    }
}

// The number that a lane of some words holds, word k its bit k; of no more bits than a circuit may have latches.
pub fn lane_number(words: &[u64], j: usize) -> u16
    ensures { result ≡ lane_number words.now j }
{
    let mut number = 0;
    for word in front(words, Circuit::LATCHES).iter().rev() {
        number = 2 * number + u16::from(is_lane(*word, j));
    }
    number
}
