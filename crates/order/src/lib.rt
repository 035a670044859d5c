// The order in which gates are evaluated (02, T-01): each behind the gates that define its operands. Definitions (specs/) and their laws
// (proofs/Laws/); a graph is a list of numbers, two for each gate.
#![tactic(auto)]

mod circles;
mod graph;
mod marks;
mod placing;
mod test;
mod visits;

ghost use Rattle.std.specs.Prelude.{min, ◌*◌, ◌/◌, ◌≤◌, ◌≡◌, length};
ghost use Rattle.below.specs.Table.{table};
ghost use Rattle.order.specs.Answer.{answer_of, gates_in, marks_after, places_after};
ghost use Rattle.order.specs.Placing.{order_of};

use graph::Gates;

// Places as many gates as there are numbers, marks and places for; what lies behind isn't touched. The marks are 0 then. Err holds the lowest
// gate that reaches itself.
pub fn order_of(uses: &[u16], marks: &mut [u8], order: &mut [u16]) -> Result<(), usize>
    ensures answer { result ≡ answer_of uses.now (gates_in uses.now marks.old order.old) }
    ensures places { order.new ≡ places_after uses.now marks.old order.old }
    ensures marks { marks.new ≡ marks_after uses.now marks.old order.old }
{
    let n = gates_in(uses.len(), marks.len(), order.len());
    judge(uses, &mut marks[..n], &mut order[..n])
}

#[tactic(auto, using(crate::proofs::Laws::Answer::tested_in_order))]
fn judge(uses: &[u16], marks: &mut [u8], order: &mut [u16]) -> Result<(), usize>
    requires pairs { 2 * length marks.old ≤ length uses.now }
    requires small { length marks.old ≤ 65535 }
    requires long { length order.old ≡ length marks.old }
    ensures answer { result ≡ answer_of uses.now (length marks.old) }
    ensures places { order.new ≡ order_of uses.now (length marks.old) }
    ensures marks { marks.new ≡ table (λ i. 0) (length marks.old) }
{
    let mut gates = Gates { uses, marks, order };
    gates.place();
    if gates.in_order() {
        gates.clear();
        return Ok(());
    }
    let answer = gates.no_circle();
    gates.place();
    gates.clear();
    answer
}

fn gates_in(uses: usize, marks: usize, order: usize) -> usize
    ensures { result ≡ min (min (uses / 2) marks) (min order 65535) }
{
    (uses / 2).min(marks).min(order.min(65535))
}
