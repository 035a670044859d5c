// The rounds of the solver (01, "The game"): each is worked out from the ranks of the one before, kept whole.
ghost use Rattle.std.specs.Prelude.{ℕ, ◌*◌, ◌^◌, ◌<◌, ◌≤◌, Bool, ◌≡◌, length};
ghost use Rattle.below.specs.Table.{table};
ghost use Rattle.circuit.specs.Limits.{base};
ghost use Rattle.game.specs.NetGame.{net_game};
ghost use Rattle.game.specs.Rank.{not_ranked, round};
ghost use Rattle.keeping.specs.RankList.{ranks_in};
ghost use Rattle.net.specs.Net.{net_latches};
ghost use Rattle.solver.specs.Inner.Answers.{Ended, replies_over};
ghost use Rattle.solver.specs.Inner.AttacksAfter.{attack_after, attacks_after};
ghost use Rattle.solver.specs.Inner.Kept.{Kept};
ghost use Rattle.solver.specs.Inner.Search.{KeptIn, SameRoom};
ghost use Rattle.solver.specs.RankTable.{round_table};
ghost use Rattle.solver.specs.Solution.{solution_of};

use crate::Solution;
use crate::look::Search;
use crate::planes::Slot;
use crate::sizes::states;
use below::filled;
use blocks::LITERALS;
use circuit::Circuit;
use keeping::rank_list::{KeptControl, Unranked, rank_at};

// What goes on from round to round: what is kept of the places, and of blocks.
#[derive(Drop)]
struct Room<'a> {
    net: &'a [u16],
    words: [u64; LITERALS],
    kept: &'a mut [KeptControl],
    slots: &'a mut [Slot],
}

// The ranks after some rounds, and the attack of each state that has one.
#[derive(Clone, Copy, Debug, PartialEq, Eq)]
struct Ranked {
    ranks: [u16; Circuit::STATES],
    attacks: [u8; Circuit::STATES],
}

// The solution, where nothing was looked at before.
pub(crate) fn solve_in(net: &[u16], kept: &mut [KeptControl], slots: &mut [Slot]) -> Solution
    requires { (set : ℕ → Bool) → Kept net.now set kept.old slots.old }
    ensures { result ≡ solution_of (net_game net.now) }
{
    let mut room = Room {
        net,
        words: filled(0),
        kept,
        slots,
    };
    let Ranked { ranks, attacks } = room.rounds();
    let mut replies = filled(0);
    room.put_replies(ranks, &mut replies);
    Solution {
        ranks,
        replies,
        attacks,
    }
}

impl Room<'_> {
    // Rounds until one changes nothing: then none after it does.
    fn rounds(&mut self) -> Ranked
        requires { (set : ℕ → Bool) → KeptIn self.old set }
        ensures same { SameRoom self.old self.new }
        ensures ended { Ended (net_game self.old.net.now) result.ranks result.attacks }
        ensures kept_on { KeptIn self.new (not_ranked (ranks_in result.ranks) (2 ^ base.latches)) }
    {
        let mut ranks = filled(0);
        let mut attacks = filled(0);
        for k in 0..states(self.net) {
            let after = self.round(ranks, k as u16, &mut attacks);
            if after == ranks {
                return Ranked {
                    ranks: after,
                    attacks,
                };
            }
            ranks = after;
        }
        Ranked { ranks, attacks }
    }

    // A round from the ranks of the one before; a state that gets a rank gets its attack.
    fn round(
        &mut self,
        ranks: [u16; Circuit::STATES],
        k: u16,
        attacks: &mut [u8],
    ) -> [u16; Circuit::STATES]
        requires k_bound { k ≤ 2 ^ base.latches }
        requires attacks_len { length attacks.old ≡ 2 ^ base.latches }
        requires kept { KeptIn self.old (not_ranked (ranks_in ranks) k) }
        ensures same { SameRoom self.old self.new }
        ensures after { result ≡ round_table (net_game self.old.net.now) (2 ^ net_latches self.old.net.now) k ranks }
        ensures attacks { attacks.new ≡ attacks_after (net_game self.old.net.now) (2 ^ net_latches self.old.net.now) k ranks attacks.old }
        ensures kept_on { KeptIn self.new (not_ranked (ranks_in ranks) k) }
    {
        let mut after = ranks;
        let mut search = Search::new(
            self.net,
            Unranked {
                ranks: &ranks,
                bound: k,
            },
            &mut self.words,
            &mut *self.kept,
            &mut *self.slots,
        );
        for state in 0..states(self.net) {
            let given = search.ranked(state, attacks[state]);
            after[state] = given.rank;
            attacks[state] = given.attack;
        }
        after
    }

    // Puts the replies, after the last round.
    fn put_replies(&mut self, ranks: [u16; Circuit::STATES], replies: &mut [u8; Circuit::REPLIES])
        requires kept { KeptIn self.old (not_ranked (ranks_in ranks) (2 ^ base.latches)) }
        requires ranks_bound { (t : ℕ) → ranks_in ranks t ≤ 2 ^ base.latches }
        requires blank { replies.old ≡ table (λ i. 0) (2 ^ base.latches * 2 ^ base.uncontrollable) }
        ensures { replies.new ≡ replies_over self.old.net.now ranks }
    {
        let mut search = Search::new(
            self.net,
            Unranked {
                ranks: &ranks,
                bound: Circuit::STATES as u16,
            },
            &mut self.words,
            &mut *self.kept,
            &mut *self.slots,
        );
        search.put_replies(replies);
    }
}

// What a state has after a round: its rank, and its attack where it has one.
#[derive(Clone, Copy, Debug, PartialEq, Eq)]
struct Given {
    rank: u16,
    attack: u8,
}

impl Search<'_> {
    ghost use Rattle.solver.specs.Inner.Search.{Same};

    // The rank and the attack of a state after the round.
    fn ranked(&mut self, state: usize, attack: u8) -> Given
        requires k_bound { self.old.set.bound ≤ 2 ^ base.latches }
        requires state_bound { state < 2 ^ net_latches self.old.net.now }
        ensures same { Same self.old self.new }
        ensures rank { result.rank ≡ round (net_game self.old.net.now) self.old.set.bound (ranks_in self.old.set.ranks.now) state }
        ensures attack { result.attack ≡ attack_after (net_game self.old.net.now) self.old.set.bound self.old.set.ranks.now attack state }
    {
        let rank = rank_at(self.set.ranks, state);
        if 0 < rank {
            return Given { rank, attack };
        }
        match self.least_defeat(state) {
            Some(reading) => Given {
                rank: self.set.bound + 1,
                attack: reading as u8,
            },
            None => Given { rank: 0, attack: 0 },
        }
    }
}
