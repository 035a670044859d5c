// The step of a circuit (01, "The game").
#![tactic(auto)]

mod truths;

ghost use Rattle.std.specs.Prelude.{◌≡◌};
ghost use Rattle.circuit.specs.Stored.{meant, meant_lent};
ghost use Rattle.step.specs.Step.{step as step_of};

use circuit::{Circuit, Lent};
use truths::Values;

// What the uncontrollable and the controllable inputs say; taken apart only in a step, and where a move is made.
#[derive(Clone, Copy, Debug, PartialEq, Eq)]
pub struct Reading(pub u8);

#[derive(Clone, Copy, Debug, PartialEq, Eq)]
pub struct Control(pub u8);

// What a step gives: the error, before the latches move, and the next state.
#[derive(Clone, Copy, Debug, PartialEq, Eq)]
pub struct Stepped {
    pub error: bool,
    pub next: u16,
}

// A step of a circuit. Bits of state, reading and control above the circuit's counts aren't read.
pub fn step(c: Circuit, state: u16, reading: Reading, control: Control) -> Stepped
    ensures { result ≡ step_of (meant c) state reading.0 control.0 }
{
    step_lent(c.lent(), state, reading, control)
}

// A step over lent arrays: bits of state, reading and control above the circuit's counts aren't read. Here a reading and a control
// are taken apart.
#[tactic(auto, using(crate::proofs::Laws::Step::step_is))]
pub fn step_lent(circuit: Lent<'_>, state: u16, reading: Reading, control: Control) -> Stepped
    ensures { result ≡ step_of (meant_lent circuit.entry) state reading.0 control.0 }
{
    let mut values = Values::none();
    values.put_inputs(circuit, reading.0, control.0);
    values.put_latches(circuit, state);
    values.put_gates(circuit);
    Stepped {
        error: values.value(circuit.output),
        next: values.next_state(circuit),
    }
}
