// The truth of each variable in a step (01, "The file", rules 3 and 4), and what it says of literals. Literals are as lists store them: one
// that is too large counts as 0.
ghost use Rattle.std.specs.Prelude.{false, ◌≡◌};
ghost use Rattle.circuit.specs.Literal.{variable};
ghost use Rattle.circuit.specs.Stored.{literal_of, meant_lent};
ghost use Rattle.step.specs.NextIn.{next_in};
ghost use Rattle.step.specs.Truths.{truths};
ghost use Rattle.step.specs.Value.{literal_value, put, with_inputs, with_latches, with_gates};

use below::{filled, front, get_or};
use bits::bytes::{byte_bit, put_bit};
use circuit::stored::{is_controllable, latches_of, literal};
use circuit::{Circuit, Lent};

// A bit for each variable, eight to the byte.
#[derive(Drop)]
pub(crate) struct Values {
    bytes: [u8; Values::BYTES],
}

impl Values {
    const BYTES: usize = (Circuit::VALUES + 7) / 8;

    // Each variable false.
    pub(crate) fn none() -> Values
        ensures { truths result.bytes ≡ (λ v. false) }
    {
        Values { bytes: filled(0) }
    }

    #[tactic(auto, using(crate::proofs::Laws::Value::inputs_put), unfolding(bits::specs::Bit::odd))]
    pub(crate) fn put_inputs(&mut self, circuit: Lent<'_>, mut reading: u8, mut control: u8)
        ensures { truths self.new.bytes
            ≡ with_inputs (meant_lent circuit.entry).inputs reading control (truths self.old.bytes) }
    {
        for (i, input) in circuit.input.iter().enumerate() {
            if is_controllable(circuit.controllable, i) {
                self.put(*input, control % 2 == 1);
                control /= 2;
            } else {
                self.put(*input, reading % 2 == 1);
                reading /= 2;
            }
        }
    }

    #[tactic(auto, using(crate::proofs::Laws::Value::latches_put), unfolding(bits::specs::Bit::odd))]
    pub(crate) fn put_latches(&mut self, circuit: Lent<'_>, mut state: u16)
        ensures { truths self.new.bytes ≡ with_latches (meant_lent circuit.entry).latches state (truths self.old.bytes) }
    {
        for latch in front(circuit.latch, Circuit::LATCHES) {
            self.put(*latch, state % 2 == 1);
            state /= 2;
        }
    }

    #[tactic(auto, using(crate::proofs::Laws::Value::gates_put))]
    pub(crate) fn put_gates(&mut self, circuit: Lent<'_>)
        ensures { truths self.new.bytes ≡ with_gates (meant_lent circuit.entry).gates (truths self.old.bytes) }
    {
        for (i, gate) in circuit.gate.iter().enumerate() {
            let both = self.value(get_or(circuit.left, i, 0))
                && self.value(get_or(circuit.right, i, 0));
            self.put(*gate, both);
        }
    }

    // The next state, from its highest bit down.
    #[tactic(auto, using(crate::proofs::Laws::NextIn::bits_from_top))]
    pub(crate) fn next_state(&self, circuit: Lent<'_>) -> u16
        ensures { result ≡ next_in (truths self.now.bytes) (meant_lent circuit.entry).latches }
    {
        let mut state = 0;
        for i in (0..latches_of(circuit.latch.len())).rev() {
            state = 2 * state + u16::from(self.value(get_or(circuit.next, i, 0)));
        }
        state
    }

    // The truth of a literal.
    #[tactic(auto, using(crate::proofs::Laws::Value::literals_told), unfolding(bits::specs::Bit::odd, crate::specs::Truths::truths))]
    pub(crate) fn value(&self, stored: u16) -> bool
        ensures { result ≡ literal_value (truths self.now.bytes) (literal_of stored) }
    {
        let l = literal(stored);
        let inverted = l % 2 == 1;
        if l < 2 {
            inverted
        } else {
            byte_bit(&self.bytes, usize::from(l / 2)) != inverted
        }
    }

    // Puts a truth at the variable of a literal.
    #[tactic(auto, using(crate::proofs::Laws::Truths::bit_put))]
    fn put(&mut self, stored: u16, truth: bool)
        ensures { truths self.new.bytes ≡ put (variable (literal_of stored)) truth (truths self.old.bytes) }
    {
        put_bit(&mut self.bytes, usize::from(literal(stored) / 2), truth);
    }
}
