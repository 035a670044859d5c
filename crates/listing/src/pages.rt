// The pages (01, "Listings to compare"): of a circuit that was solved, and of a refused file.
ghost use Rattle.std.specs.Prelude.{◌≡◌};
ghost use Rattle.circuit.specs.Fault.{number_of};
ghost use Rattle.listing.specs.Page.{refusal_text, verdict_word};
ghost use Rattle.listing.specs.Inner.SolvedText.{inside, solved_text};

use crate::states::{Attacks, Replies};
use below::get_or;
use circuit::Refusal;
use circuit::counts::{Counts, numbers};
use page::{Page, Text};
use solver::Solution;

// Verdict and counts, then a line for each state: L, U and C, and what the solver answers.
#[derive(Clone, Copy)]
pub(crate) struct Solved<'a> {
    pub counts: Counts,
    pub solution: &'a Solution,
}

impl Text for Solved<'_> {
    ghost text = { λ s. solved_text s.counts s.solution.now };

    // The rank of state 0 is the verdict.
    fn put(&self, page: &mut Page) {
        let counts = self.counts;
        let realizable = self.is_inside(0);
        page.bytes(word_of(realizable));
        page.line(&[counts.latches, counts.readings, counts.controls]);
        let states = numbers(counts.latches);
        if realizable {
            page.in_turn(&Replies(*self), states);
        } else {
            page.in_turn(&Attacks(*self), states);
        }
    }
}

impl Solved<'_> {
    // Whether a state is in the region: its rank is 0.
    #[tactic(auto, unfolding(crate::specs::Inner::SolvedText::inside, keeping::specs::RankList::ranks_in))]
    pub(crate) fn is_inside(&self, state: usize) -> bool
        ensures { result ≡ inside self.now.solution.now.ranks state }
    {
        get_or(&self.solution.ranks, state, 0) == 0
    }
}

#[tactic(auto, unfolding(crate::specs::Page::verdict_word))]
fn word_of(realizable: bool) -> &'static [u8]
    ensures { result.now ≡ verdict_word realizable }
{
    if realizable {
        b"realizable "
    } else {
        b"unrealizable "
    }
}

// `refused`, number, place. Not printed by `Display`: the contract of `write!` says nothing of what stands after an `Err`.
#[derive(Clone, Copy)]
pub(crate) struct Refused(pub Refusal);

impl Text for Refused {
    ghost text = { λ r. refusal_text (number_of r.0.fault) r.0.place };

    #[tactic(auto, unfolding(crate::specs::Page::refusal_text))]
    fn put(&self, page: &mut Page) {
        page.bytes(b"refused ");
        page.line(&[usize::from(self.0.fault.number()), self.0.place]);
    }
}
