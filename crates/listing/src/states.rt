// The lines of the states (01, "Listings to compare"). A place that no number holds lies behind every list.
ghost use Rattle.std.specs.Prelude.{◌+◌, get_or};
ghost use Rattle.page.specs.Field.{field};
ghost use Rattle.listing.specs.Inner.SolvedText.{attack_text, numbers, reply_text};

use crate::pages::Solved;
use below::get_or;
use circuit::counts::numbers;
use page::{Page, Texts};

// A line for each state: its number, 1 or 0 for in or out, the replies by reading.
#[derive(Clone, Copy)]
pub(crate) struct Replies<'a>(pub Solved<'a>);

impl Texts for Replies<'_> {
    ghost nth = { λ l. reply_text l.0.solution.now (numbers l.0.counts.readings) };

    fn put_nth(&self, page: &mut Page, state: usize) {
        let readings = numbers(self.0.counts.readings);
        page.number(state);
        page.field(usize::from(self.0.is_inside(state)));
        page.in_turn(
            &Row {
                replies: &self.0.solution.replies,
                first: state.saturating_mul(readings),
            },
            readings,
        );
        page.bytes(b"\n");
    }
}

// The replies of a list from the first on, each behind a space.
#[derive(Clone, Copy)]
struct Row<'a> {
    replies: &'a [u8],
    first: usize,
}

impl Texts for Row<'_> {
    ghost nth = { λ r i. field (get_or r.replies.now (r.first + i) 0) };

    fn put_nth(&self, page: &mut Page, i: usize) {
        page.field(usize::from(get_or(self.replies, self.first.saturating_add(i), 0)));
    }
}

// A line for each state: its number, rank and attack.
#[derive(Clone, Copy)]
pub(crate) struct Attacks<'a>(pub Solved<'a>);

impl Texts for Attacks<'_> {
    ghost nth = { λ l. attack_text l.0.solution.now };

    fn put_nth(&self, page: &mut Page, state: usize) {
        let rank = usize::from(get_or(&self.0.solution.ranks, state, 0));
        let attack = usize::from(get_or(&self.0.solution.attacks, state, 0));
        page.line(&[state, rank, attack]);
    }
}
