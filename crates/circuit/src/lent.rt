// What a circuit lends: of each array what lies below its count.
ghost use Rattle.std.specs.Prelude.{◌≡◌};
ghost use Rattle.circuit.specs.Stored.{meant, meant_lent};

use crate::Circuit;
use below::front;

#[derive(Clone, Copy)]
pub struct Lent<'a> {
    pub largest: u16,
    pub input: &'a [u16],
    pub controllable: &'a [u8],
    pub latch: &'a [u16],
    pub next: &'a [u16],
    pub output: u16,
    pub gate: &'a [u16],
    pub left: &'a [u16],
    pub right: &'a [u16],
    pub lines: &'a [u16],
}

impl Circuit {
    pub fn lent(&self) -> Lent<'_>
        ensures { meant_lent result ≡ meant self.now }
    {
        Lent {
            largest: self.largest,
            input: front(&self.input, self.inputs),
            controllable: &self.controllable,
            latch: front(&self.latch, self.latches),
            next: &self.next,
            output: self.output,
            gate: front(&self.gate, self.gates),
            left: &self.left,
            right: &self.right,
            lines: front(&self.lines, self.gates),
        }
    }
}
