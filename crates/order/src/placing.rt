// All gates, visited in turn (02, T-01).
ghost use Rattle.std.specs.Prelude.{◌≡◌};
ghost use Rattle.order.specs.Placing.{order_of};
ghost use Rattle.order.specs.Inner.Kept.{Kept, gate_count};

use crate::graph::Gates;

impl Gates<'_> {
    #[tactic(auto, using(crate::proofs::Laws::Going::turns))]
    pub(crate) fn place(&mut self)
        ensures kept { Kept self.old self.new }
        ensures placed { self.new.order.now ≡ order_of self.old.uses.now (gate_count self.old) }
    {
        self.clear();
        let mut count = 0;
        for gate in 0..self.marks.len() {
            count = self.visit(gate, count);
        }
    }
}
