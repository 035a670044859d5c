// The names of a circuit's variables: the net's variable for each, 0 where it has none.
ghost use Rattle.std.specs.Prelude.{ℕ, ◌+◌, ◌<◌, ◌≡◌};
ghost use Rattle.circuit.specs.Circuit.{controllable_count, uncontrollable_count};
ghost use Rattle.circuit.specs.Literal.{variable};
ghost use Rattle.circuit.specs.Stored.{literal_of, meant};
ghost use Rattle.net.specs.InOrder.{variables};
ghost use Rattle.net.specs.Inner.NamesIn.{names_in};
ghost use Rattle.net.specs.NetOf.{name, net_literal, name_inputs, name_latches};

use below::{filled, front};
use circuit::Circuit;
use circuit::stored::{is_controllable, literal};

#[derive(Drop)]
pub(crate) struct Names {
    given: [u16; Circuit::VALUES],
    ghost few: { (v : ℕ) → names_in given v < variables },
}

impl Names {
    // No variable has a name.
    pub(crate) fn none() -> Names
        ensures { names_in result.given ≡ (λ v. 0) }
    {
        Names { given: filled(0) }
    }

    // Names the inputs: controls from 1 on, readings behind them.
    #[tactic(auto, using(crate::proofs::Laws::Naming::inputs_named), unfolding(circuit::specs::Counts::counts_of))]
    pub(crate) fn name_inputs(&mut self, c: &Circuit)
        ensures { names_in self.new.given
            ≡ name_inputs (meant c.now).inputs 1 (1 + controllable_count (meant c.now)) (names_in self.old.given) }
    {
        let mut control = 1;
        let mut reading = 1 + c.lent().counts().controls;
        for (i, input) in front(&c.input, c.inputs).iter().enumerate() {
            if is_controllable(&c.controllable, i) {
                self.name(*input, control);
                control += 1;
            } else {
                self.name(*input, reading);
                reading += 1;
            }
        }
    }

    // Names the latches, behind the inputs.
    #[tactic(auto, using(crate::proofs::Laws::Naming::latches_named), unfolding(circuit::specs::Counts::counts_of))]
    pub(crate) fn name_latches(&mut self, c: &Circuit)
        ensures { names_in self.new.given
            ≡ name_latches (meant c.now).latches (1 + controllable_count (meant c.now) + uncontrollable_count (meant c.now))
            (names_in self.old.given) }
    {
        let counts = c.lent().counts();
        let first = 1 + counts.controls + counts.readings;
        for (i, latch) in front(&c.latch, c.latches).iter().enumerate() {
            self.name(*latch, first + i);
        }
    }

    // Gives the variable of a stored literal a name.
    #[tactic(auto, using(crate::proofs::Laws::Naming::names_kept))]
    pub(crate) fn name(&mut self, stored: u16, v: usize)
        requires { v < variables }
        ensures { names_in self.new.given ≡ name (variable (literal_of stored)) v (names_in self.old.given) }
    {
        self.given[usize::from(literal(stored) / 2)] = v as u16;
    }

    // The net's literal for a stored one.
    #[tactic(auto, using(crate::proofs::Laws::Naming::literals_named))]
    pub(crate) fn literal(&self, stored: u16) -> u16
        ensures { result ≡ net_literal (names_in self.now.given) (literal_of stored) }
    {
        let l = literal(stored);
        if l < 2 {
            l
        } else {
            2 * self.given[usize::from(l / 2)] + l % 2
        }
    }
}
