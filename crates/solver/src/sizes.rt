// How many states, readings, controls and places the game of a net has (01, "The game"): no more than that of a circuit may have.
ghost use Rattle.std.specs.Prelude.{◌*◌, ◌^◌, ◌≤◌, ◌≡◌};
ghost use Rattle.circuit.specs.Limits.{base};
ghost use Rattle.net.specs.Net.{net_controls, net_readings, net_latches};
ghost use Rattle.net.specs.Sized.{Sized};
ghost use Rattle.solver.specs.Inner.Moves.{places};

use circuit::counts::numbers;
use net::counts;

#[tactic(auto, using(crate::proofs::Laws::Moves::few_states))]
pub(crate) fn states(net: &[u16]) -> usize
    requires { Sized net.now }
    ensures value { result ≡ 2 ^ net_latches net.now }
    ensures few { result ≤ 2 ^ base.latches }
{
    numbers(counts::latches(net))
}

#[tactic(auto, using(crate::proofs::Laws::Moves::few_readings_lem))]
pub(crate) fn readings(net: &[u16]) -> usize
    requires { Sized net.now }
    ensures value { result ≡ 2 ^ net_readings net.now }
    ensures few { result ≤ 2 ^ base.uncontrollable }
{
    numbers(counts::readings(net))
}

pub(crate) fn controls(net: &[u16]) -> usize
    requires { Sized net.now }
    ensures value { result ≡ 2 ^ net_controls net.now }
    ensures few { result ≤ 2 ^ base.controllable }
{
    numbers(counts::controls(net))
}

// A place is a state and a reading.
#[tactic(auto, unfolding(crate::specs::Inner::Moves::places))]
pub(crate) fn places(net: &[u16]) -> usize
    requires { Sized net.now }
    ensures value { result ≡ places net.now }
    ensures few { result ≤ 2 ^ base.latches * 2 ^ base.uncontrollable }
{
    states(net) * readings(net)
}
