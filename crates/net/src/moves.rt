// A move (01, "The game"): state, reading and control as one number. Here, as in the step, a reading and a control are taken apart.
ghost use Rattle.std.specs.Prelude.{min, ◌≡◌};
ghost use Rattle.circuit.specs.Limits.{base};
ghost use Rattle.net.specs.Move.{move_of};

use bits::bytes::low_bits;
use circuit::Circuit;
use circuit::counts::Counts;
use step::{Control, Reading};

// The move of a state, a reading and a control. No more latches, readings and controls count than a circuit may have latches and inputs. Bits
// above the counts aren't read.
#[tactic(auto, using(crate::proofs::Laws::Move::move_made))]
pub fn move_of(counts: Counts, state: u16, reading: Reading, control: Control) -> usize
    ensures { result ≡ move_of (min counts.latches base.latches) (min counts.readings base.inputs) (min counts.controls base.inputs)
        state reading.0 control.0 }
{
    let latches = counts.latches.min(Circuit::LATCHES);
    let readings = counts.readings.min(Circuit::INPUTS);
    let controls = counts.controls.min(Circuit::INPUTS);
    let high = low_bits(usize::from(state), latches);
    let middle = low_bits(usize::from(reading.0), readings);
    let low = low_bits(usize::from(control.0), controls);
    (((high << readings) + middle) << controls) + low
}
