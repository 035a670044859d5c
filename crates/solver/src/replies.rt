// The replies (01, "The game"): for a state of rank 0 the least control that keeps, which the rounds kept; for another 0.
ghost use Rattle.std.specs.Prelude.{ℕ, ◌*◌, ◌^◌, ◌<◌, ◌≤◌, ◌≡◌};
ghost use Rattle.below.specs.Table.{table};
ghost use Rattle.circuit.specs.Limits.{base};
ghost use Rattle.keeping.specs.RankList.{ranks_in};
ghost use Rattle.solver.specs.Inner.Moves.{places};
ghost use Rattle.solver.specs.Inner.Answers.{reply_at, replies_over};

use crate::look::Search;
use crate::sizes::{places, readings};
use circuit::Circuit;
use keeping::rank_list::rank_at;

impl Search<'_> {
    ghost use Rattle.solver.specs.Inner.Search.{Same};

    // Puts the replies of the states of rank 0, where no rank is above the bound; the others stay 0.
    pub(crate) fn put_replies(&mut self, replies: &mut [u8; Circuit::REPLIES])
        requires ranks_bound { (t : ℕ) → ranks_in self.old.set.ranks.now t ≤ self.old.set.bound }
        requires blank { replies.old ≡ table (λ i. 0) (2 ^ base.latches * 2 ^ base.uncontrollable) }
        ensures same { Same self.old self.new }
        ensures replies { replies.new ≡ replies_over self.old.net.now self.old.set.ranks.now }
    {
        for place in 0..places(self.net) {
            replies[place] = self.reply_at(place);
        }
    }

    // The reply at a place, where no rank is above the bound.
    fn reply_at(&mut self, place: usize) -> u8
        requires ranks_bound { (t : ℕ) → ranks_in self.old.set.ranks.now t ≤ self.old.set.bound }
        requires place_bound { place < places self.old.net.now }
        ensures same { Same self.old self.new }
        ensures reply { result ≡ reply_at self.old.net.now self.old.set.ranks.now place }
    {
        if 0 < rank_at(self.set.ranks, place / readings(self.net)) {
            return 0;
        }
        match self.least_kept(place) {
            Some(control) => control as u8,
            None => 0,
        }
    }
}
