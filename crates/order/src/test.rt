// The test of an order (02, T-01): gate by gate, with those in front marked.
ghost use Rattle.std.specs.Prelude.{◌≡◌};
ghost use Rattle.order.specs.Ordered.{is_ordered};
ghost use Rattle.order.specs.Inner.Kept.{Kept, gate_count};
ghost use Rattle.order.specs.Inner.FitsMarked.{fits_marked};

use crate::graph::Gates;

impl Gates<'_> {
    #[tactic(auto, using(crate::proofs::Laws::Tested::turns))]
    pub(crate) fn in_order(&mut self) -> bool
        ensures kept { Kept self.old self.new }
        ensures order { self.new.order.now ≡ self.old.order.now }
        ensures answer { result ≡ is_ordered self.old.uses.now (gate_count self.old) self.old.order.now }
    {
        self.clear();
        for k in 0..self.order.len() {
            let gate = usize::from(self.order[k]);
            if !self.fits(gate) {
                return false;
            }
            self.marks[gate] = 1;
        }
        true
    }

    #[tactic(auto, using(crate::proofs::Laws::Marks::unmarked_below), unfolding(crate::specs::Inner::FitsMarked::fits_marked))]
    fn fits(&self, gate: usize) -> bool
        ensures { result ≡ fits_marked self.now.uses.now self.now.marks.now gate }
    {
        if self.seen(gate) {
            return false;
        }
        let (first, second) = self.operands_of(gate);
        self.seen(first) && self.seen(second)
    }
}
