// The marks of gates that were visited, a byte for each gate.
ghost use Rattle.std.specs.Prelude.{◌≡◌};
ghost use Rattle.below.specs.Table.{table};
ghost use Rattle.order.specs.Placing.{marked};
ghost use Rattle.order.specs.Inner.Kept.{Kept, gate_count};

use crate::graph::Gates;
use below::get_or;

impl Gates<'_> {
    #[tactic(auto, using(below::proofs::Laws::Filled::replicate_table))]
    pub(crate) fn clear(&mut self)
        ensures kept { Kept self.old self.new }
        ensures marks { self.new.marks.now ≡ table (λ i. 0) (gate_count self.old) }
        ensures order { self.new.order.now ≡ self.old.order.now }
    {
        self.marks.fill(0);
    }

    // A gate behind the marks counts as marked.
    #[tactic(auto, unfolding(crate::specs::Placing::marked))]
    pub(crate) fn seen(&self, gate: usize) -> bool
        ensures { result ≡ marked self.now.marks.now gate }
    {
        get_or(self.marks, gate, 1) != 0
    }
}
