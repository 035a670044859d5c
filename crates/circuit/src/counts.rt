// How many inputs of lent lists are controllable, and how many aren't (01, the table of limits: C and U); how many numbers so many bits make.
ghost use Rattle.std.specs.Prelude.{◌^◌, min, not, ◌||◌, ◌≡◌, ltb};
ghost use Rattle.circuit.specs.Circuit.{Input, inputs_that};
ghost use Rattle.circuit.specs.Counts.{counts_of};
ghost use Rattle.circuit.specs.Limits.{base};
ghost use Rattle.circuit.specs.Stored.{inputs_of, meant_lent};

use crate::stored::latches_of;
use crate::{Circuit, Lent};
use below::front;

// L, U and C.
#[derive(Clone, Copy, Debug, PartialEq, Eq)]
pub struct Counts {
    pub latches: usize,
    pub readings: usize,
    pub controls: usize,
}

impl Lent<'_> {
    pub fn counts(self) -> Counts
        ensures { result ≡ counts_of (meant_lent self.entry) }
    {
        Counts {
            latches: latches_of(self.latch.len()),
            readings: uncontrollable_count(self.input, self.controllable),
            controls: controllable_count(self.input, self.controllable),
        }
    }
}

#[tactic(auto, using(crate::proofs::Laws::Inputs::controllable_flags))]
pub fn controllable_count(input: &[u16], controllable: &[u8]) -> usize
    ensures { result ≡ inputs_that (λ (i : Input). i.controllable) (inputs_of input.now controllable.now) }
{
    front(controllable, input.len())
        .iter()
        .filter(|flag| **flag != 0)
        .count()
}

#[tactic(auto, using(crate::proofs::Laws::Inputs::inputs_parted, crate::proofs::Laws::Inputs::length_inputs))]
pub fn uncontrollable_count(input: &[u16], controllable: &[u8]) -> usize
    ensures { result ≡ inputs_that (λ (i : Input). not i.controllable) (inputs_of input.now controllable.now) }
{
    input.len() - controllable_count(input, controllable)
}

// Whether these are more than a circuit may have.
pub fn too_many(uncontrollable: usize, controllable: usize) -> bool
    ensures { result ≡ (ltb base.uncontrollable uncontrollable || ltb base.controllable controllable) }
{
    Circuit::UNCONTROLLABLE < uncontrollable || Circuit::CONTROLLABLE < controllable
}

// How many numbers n bits make, of as many bits as a state may have.
pub fn numbers(n: usize) -> usize
    ensures { result ≡ 2 ^ min n base.latches }
{
    1 << n.min(Circuit::LATCHES)
}
