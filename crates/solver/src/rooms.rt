// The room that a solve takes, by the size of the game: a control kept for each place, and slots for the planes of some blocks.
ghost use Rattle.std.specs.Prelude.{◌*◌, ◌^◌, ◌<◌, ◌≤◌, ◌≡◌};
ghost use Rattle.circuit.specs.Limits.{base};
ghost use Rattle.game.specs.NetGame.{net_game};
ghost use Rattle.net.specs.InOrder.{InOrder};
ghost use Rattle.net.specs.Sized.{Sized};
ghost use Rattle.solver.specs.Solution.{solution_of};
ghost use Rattle.solver.specs.Inner.Moves.{places};
ghost use Rattle.solver.specs.Inner.SolvableNet.{solvable_net};

use crate::Solution;
use crate::planes::Slot;
use crate::rounds::solve_in;
use crate::sizes::{controls, places};
use circuit::Circuit;
use circuit::counts::too_many;
use keeping::rank_list::KeptControl;
use net::counts;

// Places and slots of a small game, and slots of a middling one; a large one has a slot for each place.
const FEW_PLACES: usize = 2048;

const FEW: usize = 512;

const SOME: usize = 4096;

// How many places a game has at most.
const ALL: usize = Circuit::REPLIES;

// The net of no circuit: no input, latch or gate, and an output that is never 1.
const EMPTY: [u16; 4] = [0; 4];

// The solution of a net, or of the empty one where it has too many inputs of a sort.
pub(crate) fn solve_net(net: &[u16]) -> Solution
    requires { InOrder net.now }
    ensures { result ≡ solution_of (net_game (solvable_net net.now)) }
{
    let net = solvable(net);
    let places = places(net);
    let slots = places * controls(net).min(64) / 64;
    if SOME < slots {
        return solve_within::<ALL, ALL>(net);
    }
    if FEW < slots || FEW_PLACES < places {
        return solve_within::<ALL, SOME>(net);
    }
    solve_within::<FEW_PLACES, FEW>(net)
}

fn solvable(net: &[u16]) -> &[u16]
    requires { InOrder net.now }
    ensures value { result.now ≡ solvable_net net.now }
    ensures sized { Sized result.now }
{
    if too_many(counts::readings(net), counts::controls(net)) {
        &EMPTY
    } else {
        net
    }
}

// The solution of a net, in room for so many places and slots: nothing was looked at, and no block is held. Each room has a frame of its own,
// since the pages of a frame are touched when it is entered.
#[inline(never)]
fn solve_within<const PLACES: usize, const SLOTS: usize>(net: &[u16]) -> Solution
    requires sized { Sized net.now }
    requires enough { places net.now ≤ PLACES }
    requires some { 0 < SLOTS }
    requires few_places { PLACES ≤ 2 ^ base.latches * 2 ^ base.uncontrollable }
    requires few_slots { SLOTS ≤ 2 ^ base.latches * 2 ^ base.uncontrollable }
    ensures { result ≡ solution_of (net_game net.now) }
{
    // not `filled`: what a function answers is copied, and the largest room leaves no space for a copy
    let mut kept = [KeptControl { found: 0, lead: 0 }; PLACES];
    let mut slots = [Slot {
        next: [0; Circuit::LATCHES],
        error: 0,
        mark: 0,
    }; SLOTS];
    solve_in(net, &mut kept, &mut slots)
}
