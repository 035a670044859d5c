// The net of a circuit: the form in which it is evaluated, one list of numbers. A move: state, reading and control as one number.
#![tactic(auto)]

pub mod counts;
pub mod moves;
mod names;
mod numbers;

ghost use Rattle.std.specs.Prelude.{◌≡◌, take};
ghost use Rattle.circuit.specs.Stored.{meant};
ghost use Rattle.net.specs.NetOf.{net_of};
ghost use Rattle.net.specs.Made.{MadeAs};

use below::{filled, front};
use circuit::Circuit;
use names::Names;
use numbers::{put_gates, put_head, put_nexts};

// The numbers of a net, and how many there are; zeros stand behind them. An array and not a `Vec`: to make a net can't fail.
#[derive(Clone, Copy, Debug, PartialEq, Eq)]
pub struct Net {
    pub numbers: [u16; Net::NUMBERS],
    pub length: usize,
}

impl Net {
    // C, U, L and the output's literal; a next-state literal for each latch; two operands for each gate.
    pub const NUMBERS: usize = 4 + Circuit::LATCHES + 2 * Circuit::VARIABLES;

    // The numbers without the zeros behind them.
    pub fn as_slice(&self) -> &[u16]
        ensures { result.now ≡ take self.now.length self.now.numbers }
    {
        front(&self.numbers, self.length)
    }
}

// The net of a circuit.
pub fn make(c: Circuit) -> Net
    ensures { MadeAs (net_of (meant c)) result }
{
    let mut numbers = filled(0);
    let mut names = Names::none();
    names.name_inputs(&c);
    names.name_latches(&c);
    put_gates(&mut numbers, &mut names, &c);
    put_nexts(&mut numbers, &names, &c);
    put_head(&mut numbers, &names, &c);
    let circuit = c.lent();
    Net {
        numbers,
        length: 4 + circuit.counts().latches + 2 * circuit.gate.len(),
    }
}
