// The lowest gate that reaches itself (02, T-01, number 16): only looked for where the gates aren't in order.
ghost use Rattle.std.specs.Prelude.{◌<◌, ◌≡◌};
ghost use Rattle.order.specs.Answer.{answer_of};
ghost use Rattle.order.specs.Circle.{meets_itself};
ghost use Rattle.order.specs.Inner.Kept.{Kept, gate_count};

use crate::graph::Gates;

impl Gates<'_> {
    #[tactic(auto, using(crate::proofs::Laws::Searching::turns))]
    pub(crate) fn no_circle(&mut self) -> Result<(), usize>
        ensures kept { Kept self.old self.new }
        ensures answer { result ≡ answer_of self.old.uses.now (gate_count self.old) }
    {
        for gate in 0..self.marks.len() {
            if self.meets_itself(gate) {
                return Err(gate);
            }
        }
        Ok(())
    }

    #[tactic(auto, using(crate::proofs::Laws::Marks::unseen_most))]
    fn meets_itself(&mut self, gate: usize) -> bool
        requires { gate < gate_count self.old }
        ensures kept { Kept self.old self.new }
        ensures answer { result ≡ meets_itself self.old.uses.now (gate_count self.old) gate }
    {
        self.clear();
        let (first, second) = self.operands_of(gate);
        let placed = self.visit(first, 0);
        self.visit(second, placed);
        self.seen(gate)
    }
}
