// Visiting a gate (02, T-01): one that is marked changes nothing; else it is marked, its operands' gates are visited in turn, and it is placed.
ghost use Rattle.std.specs.Prelude.{◌+◌, ◌<◌, ◌≤◌, ◌≡◌};
ghost use Rattle.order.specs.Uses.{first_of, second_of};
ghost use Rattle.order.specs.Inner.Kept.{Kept, gate_count};
ghost use Rattle.order.specs.Inner.Unseen.{unseen};
ghost use Rattle.order.specs.Inner.Visited.{Visited, Operands};

use crate::graph::Gates;

impl Gates<'_> {
    // Answers how many gates are placed then.
    #[cycle(operands_visit)]
    #[tactic(auto, using(crate::proofs::Laws::Marks::marking))]
    pub(crate) fn visit(&mut self, gate: usize, count: usize) -> usize
        requires { count + unseen self.old.marks.now ≤ gate_count self.old }
        ensures kept { Kept self.old self.new }
        ensures visited { Visited self.old gate count self.new result }
    {
        if self.seen(gate) {
            return count;
        }
        self.marks[gate] = 1;
        self.operands(gate, count)
    }

    #[cycle(operands_visit)]
    fn operands(&mut self, gate: usize, count: usize) -> usize
        requires within { gate < gate_count self.old }
        requires room { count + unseen self.old.marks.now + 1 ≤ gate_count self.old }
        ensures kept { Kept self.old self.new }
        ensures visited { Operands self.old gate count self.new result }
    {
        let (first, second) = self.operands_of(gate);
        let placed = self.visit(first, count);
        let placed = self.visit(second, placed);
        self.order[placed] = gate as u16;
        placed + 1
    }

    // The gates that define its operands.
    pub(crate) fn operands_of(&self, gate: usize) -> (usize, usize)
        requires { gate < gate_count self.now }
        ensures first { result.0 ≡ first_of self.now.uses.now (gate_count self.now) gate }
        ensures second { result.1 ≡ second_of self.now.uses.now (gate_count self.now) gate }
    {
        (
            usize::from(self.uses[2 * gate]),
            usize::from(self.uses[2 * gate + 1]),
        )
    }
}
