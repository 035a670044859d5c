// A list of ranks (01, "The game"): a state that isn't in it has rank 0. And whether a control keeps, by the state that it leads to.
ghost use Rattle.std.specs.Prelude.{◌<◌, ◌≡◌, IfSome, length, unwrap_or};
ghost use Rattle.keeping.specs.RankList.{ranks_in};

use below::get_or;

#[tactic(auto, unfolding(crate::specs::RankList::ranks_in))]
pub fn rank_at(ranks: &[u16], state: usize) -> u16
    ensures { result ≡ ranks_in ranks.now state }
{
    get_or(ranks, state, 0)
}

// The states that aren't of rank 1 to a bound.
#[derive(Clone, Copy, Debug, PartialEq, Eq)]
pub struct Unranked<'a> {
    pub ranks: &'a [u16],
    pub bound: u16,
}

// What is kept of a place: one more than a control, or 0 where none was found; and the state that it leads to. No `Option`: it would take six
// bytes in place of four, for each of up to 32,768 places.
#[derive(Clone, Copy, Debug, PartialEq, Eq)]
pub struct KeptControl {
    pub found: u16,
    pub lead: u16,
}

impl Unranked<'_> {
    ghost use Rattle.keeping.specs.Unranked.{set_of};
    ghost use Rattle.keeping.specs.KeptControls.{still_keeps, first_failed};

    pub fn contains(self, state: usize) -> bool
        ensures { result ≡ set_of self.entry state }
    {
        !(1..=self.bound).contains(&get_or(self.ranks, state, 0))
    }

    // Whether a control was found, and leads to one of these states.
    #[tactic(auto, unfolding(crate::specs::KeptControls::still_keeps))]
    pub fn still_keeps(self, kept: KeptControl) -> bool
        ensures { result ≡ still_keeps kept (set_of self.entry) }
    {
        0 < kept.found && self.contains(usize::from(kept.lead))
    }

    // The first place from one on whose kept control doesn't keep any more.
    pub fn first_failed(self, kept: &[KeptControl], from: usize) -> Option<usize>
        ensures place { unwrap_or result (length kept.now) ≡ first_failed kept.now (set_of self.entry) from }
        ensures within { IfSome result (λ place. place < length kept.now) }
    {
        for place in from..kept.len() {
            if !self.still_keeps(kept[place]) {
                return Some(place);
            }
        }
        None
    }
}
