// The least control that keeps, at a place (01, "The game"). Ranks are never taken away, so a control that failed fails in each later round,
// and a search goes on behind the last one.
ghost use Rattle.std.specs.Prelude.{◌+◌, ◌*◌, ◌/◌, ◌^◌, ◌<◌, ◌≤◌, ◌≡◌, IfSome, length, unwrap_or};
ghost use Rattle.below.specs.LeastFrom.{least_from};
ghost use Rattle.game.specs.NetGame.{net_game};
ghost use Rattle.game.specs.Rank.{defeats};
ghost use Rattle.keeping.specs.KeptControls.{fails_in};
ghost use Rattle.keeping.specs.RankList.{ranks_in};
ghost use Rattle.keeping.specs.Unranked.{set_of};
ghost use Rattle.net.specs.InOrder.{InOrder};
ghost use Rattle.net.specs.Net.{net_controls, net_readings, net_latches};
ghost use Rattle.solver.specs.Inner.Answers.{LeastBelow, MoveFrom};
ghost use Rattle.solver.specs.Inner.Kept.{Kept, Behind};
ghost use Rattle.solver.specs.Inner.KeptOnce.{Kept-prop};
ghost use Rattle.solver.specs.Inner.Moves.{place_keeps, places};
ghost use Rattle.solver.specs.Inner.Planes.{AllHeld};

use crate::planes::{Slot, hold};
use crate::sizes::{controls, readings};
use blocks::LITERALS;
use keeping::lane::Found;
use keeping::rank_list::{KeptControl, Unranked};

// A search in one round: what keeps leads to one of the states that aren't of rank 1 to the round's number.
#[derive(Drop)]
pub(crate) struct Search<'a> {
    pub(crate) net: &'a [u16],
    pub(crate) set: Unranked<'a>,
    pub(crate) words: &'a mut [u64; LITERALS],
    pub(crate) kept: &'a mut [KeptControl],
    pub(crate) slots: &'a mut [Slot],
    ghost all_kept: { Kept net.now (set_of set) kept.now slots.now } by { Kept-prop net.now (set_of set) kept.now slots.now },
}

impl<'a> Search<'a> {
    ghost use Rattle.solver.specs.Inner.Search.{Over, Same};

    pub(crate) fn new(
        net: &'a [u16],
        set: Unranked<'a>,
        words: &'a mut [u64; LITERALS],
        kept: &'a mut [KeptControl],
        slots: &'a mut [Slot],
    ) -> Search<'a>
        requires { Kept net.now (set_of set) kept.old slots.old }
        ensures { Over result net.entry set.entry words.entry kept.entry slots.entry }
    {
        Search {
            net,
            set,
            words,
            kept,
            slots,
        }
    }

    // The least reading that defeats.
    pub(crate) fn least_defeat(&mut self, state: usize) -> Option<usize>
        requires { state < 2 ^ net_latches self.old.net.now }
        ensures same { Same self.old self.new }
        ensures reading { LeastBelow (defeats (net_game self.old.net.now) (ranks_in self.old.set.ranks.now) self.old.set.bound state)
            (2 ^ net_readings self.old.net.now) result }
    {
        let n = readings(self.net);
        let first = state * n;
        let end = first + n;
        let mut from = first;
        // Kept as a loop by hand: the places between are passed over in one loop over a lent slice, the solver's tightest.
        while let Some(place) = self.first_failed(from, end) {
            if self.look_on(place).is_none() {
                return Some(place - first);
            }
            from = place + 1;
        }
        None
    }

    // The first place from one on, below an end, whose kept control doesn't keep any more.
    fn first_failed(&self, from: usize, end: usize) -> Option<usize>
        requires { end ≤ length self.now.kept.now }
        ensures place { unwrap_or result end ≡ least_from (fails_in self.now.kept.now (set_of self.now.set)) from end }
        ensures within { IfSome result (λ place. place < end) }
    {
        self.set.first_failed(&self.kept[..end], from)
    }

    // The least control that keeps at a place: the one kept, if it still does, or one behind it.
    pub(crate) fn least_kept(&mut self, place: usize) -> Option<usize>
        requires { place < places self.old.net.now }
        ensures same { Same self.old self.new }
        ensures control { LeastBelow (place_keeps self.old.net.now (set_of self.old.set) place) (2 ^ net_controls self.old.net.now) result }
    {
        let kept = self.kept[place];
        if self.set.still_keeps(kept) {
            return Some(usize::from(kept.found) - 1);
        }
        self.look_on(place)
    }

    // Goes on behind the control kept, which doesn't keep any more, and keeps the one found.
    fn look_on(&mut self, place: usize) -> Option<usize>
        requires place_bound { place < places self.old.net.now }
        requires behind { Behind self.old.net.now (set_of self.old.set) place self.old.kept.now }
        ensures same { Same self.old self.new }
        ensures control { LeastBelow (place_keeps self.old.net.now (set_of self.old.set) place) (2 ^ net_controls self.old.net.now) result }
    {
        let n = controls(self.net);
        let first = place * n;
        let from = first + usize::from(self.kept[place].found);
        let found = self.keeping_from(from, first + n)?;
        let control = found.number - first;
        self.kept[place] = KeptControl {
            found: control as u16 + 1,
            lead: found.lead,
        };
        Some(control)
    }

    // The least move from a number on, below an end, that keeps, and where it leads.
    fn keeping_from(&mut self, from: usize, end: usize) -> Option<Found>
        requires from_le_end { from ≤ end }
        requires end_bound { end ≤ 8388608 }
        ensures same { Same self.old self.new }
        ensures kept { self.new.kept.now ≡ self.old.kept.now }
        ensures found { MoveFrom self.old.net.now (set_of self.old.set) from end result }
    {
        if from == end {
            return None;
        }
        for block in from / 64..end.div_ceil(64) {
            if let Some(found) = keeping_in(
                self.net,
                self.set,
                self.words,
                self.slots,
                from.max(64 * block),
                end.min(64 * block + 64),
            ) {
                return Some(found);
            }
        }
        None
    }
}

// The least move from a number on, below an end in the same block, that keeps, and where it leads.
fn keeping_in(
    net: &[u16],
    set: Unranked<'_>,
    words: &mut [u64; LITERALS],
    slots: &mut [Slot],
    from: usize,
    end: usize,
) -> Option<Found>
    requires in_order { InOrder net.now }
    requires all_held { AllHeld net.now slots.old }
    requires some_slot { 0 < length slots.old }
    requires some { from < end }
    requires one_block { end ≤ from / 64 * 64 + 64 }
    requires end_bound { end ≤ 8388608 }
    ensures found { MoveFrom net.now (set_of set.entry) from end result }
    ensures still_held { AllHeld net.now slots.new }
{
    let block = from / 64;
    let first = block * 64;
    let latches = net::counts::latches(net);
    let i = hold(net, words, slots, block);
    let slot = &slots[i];
    let lane = set.keeping_lane(slot.error, &slot.next[..latches], from - first, end - first)?;
    Some(Found {
        number: first + lane.number,
        lead: lane.lead,
    })
}
