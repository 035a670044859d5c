// A net in order with its L, U and C, no more than a circuit may have (01, the table of limits); and one block of its moves, evaluated.
ghost use Rattle.std.specs.Prelude.{◌+◌, ◌^◌, ◌<◌, ◌≤◌, ◌≡◌};
ghost use Rattle.circuit.specs.Limits.{base};
ghost use Rattle.game.specs.NetGame.{net_move};
ghost use Rattle.net.specs.InOrder.{InOrder};
ghost use Rattle.net.specs.Net.{net_latches, net_readings, net_controls};
ghost use Rattle.net.specs.Sized.{Sized};
ghost use Rattle.checker.specs.Inner.Holding.{Holding};

use blocks::LITERALS;
use circuit::counts::Counts;
use net::counts::{controls, latches, readings};
use net::moves::move_of;
use step::{Control, Reading};

#[derive(Clone, Copy)]
pub(crate) struct SizedNet<'a> {
    pub(crate) numbers: &'a [u16],
    pub(crate) counts: Counts,
    ghost order: { ∥ InOrder numbers.now ∥₁ },
    ghost latches: { counts.latches ≡ net_latches numbers.now },
    ghost readings: { counts.readings ≡ net_readings numbers.now },
    ghost controls: { counts.controls ≡ net_controls numbers.now },
    ghost few_latches: { counts.latches ≤ base.latches },
    ghost few_readings: { counts.readings ≤ base.uncontrollable },
    ghost few_controls: { counts.controls ≤ base.controllable },
}

impl<'a> SizedNet<'a> {
    pub(crate) fn new(numbers: &'a [u16]) -> SizedNet<'a>
        requires { Sized numbers.now }
        ensures { result.numbers.now ≡ numbers.entry.now }
    {
        let counts = Counts {
            latches: latches(numbers),
            readings: readings(numbers),
            controls: controls(numbers),
        };
        SizedNet { numbers, counts }
    }

    // How many states, readings and controls there are.
    #[tactic(auto, using(std::proofs::Common::pow_mono))]
    pub(crate) fn states(self) -> usize
        ensures number { result ≡ 2 ^ net_latches self.entry.numbers.now }
        ensures few { result ≤ 2 ^ base.latches }
    {
        1 << self.counts.latches
    }

    #[tactic(auto, using(std::proofs::Common::pow_mono))]
    pub(crate) fn readings(self) -> usize
        ensures number { result ≡ 2 ^ net_readings self.entry.numbers.now }
        ensures few { result ≤ 2 ^ base.uncontrollable }
    {
        1 << self.counts.readings
    }

    pub(crate) fn controls(self) -> usize
        ensures number { result ≡ 2 ^ net_controls self.entry.numbers.now }
        ensures few { result ≤ 2 ^ base.controllable }
    {
        1 << self.counts.controls
    }

    // The move of a state, a reading and a control.
    pub(crate) fn move_of(self, state: u16, reading: u8, control: u8) -> usize
        ensures value { result ≡ net_move self.entry.numbers.now state reading control }
        ensures few { result < 2 ^ (base.latches + base.inputs + base.inputs) }
    {
        move_of(self.counts, state, Reading(reading), Control(control))
    }
}

// The words of a block; they stay until those of another are needed.
#[derive(Drop)]
pub(crate) struct Evaluated<'a> {
    net: &'a [u16],
    block: usize,
    pub(crate) words: [u64; LITERALS],
    ghost holding: { ∥ Holding net.now block words ∥₁ },
}

impl<'a> Evaluated<'a> {
    pub(crate) fn new(net: &'a [u16]) -> Evaluated<'a>
        ensures { result.net.now ≡ net.entry.now }
    {
        let mut words = [0; LITERALS];
        blocks::evaluate(net, 0, &mut words);
        Evaluated {
            net,
            block: 0,
            words,
        }
    }

    // The words of a block.
    pub(crate) fn turn_to(&mut self, block: usize)
        ensures net { self.new.net.now ≡ self.old.net.now }
        ensures block { self.new.block ≡ block }
    {
        if self.block != block {
            blocks::evaluate(self.net, block, &mut self.words);
            self.block = block;
        }
    }
}
