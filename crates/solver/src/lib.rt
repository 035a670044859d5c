// The solver (01, "The game"): ranks by rounds, each worked out from the one before, kept whole; the replies and attacks beside them.
#![tactic(auto)]

pub mod counts;
mod look;
mod planes;
mod replies;
mod rooms;
mod rounds;
mod sizes;

ghost use Rattle.std.specs.Prelude.{◌≡◌};
ghost use Rattle.circuit.specs.Stored.{meant, solvable};
ghost use Rattle.game.specs.CircuitGame.{circuit_game};
ghost use Rattle.solver.specs.Solution.{solution_of};

use circuit::Circuit;
use rooms::solve_net;

// What the solver answers: ranks and attacks of the states, and replies, at index s × 2^U + reading; 0 behind the last.
#[derive(Clone, Copy, Debug, PartialEq, Eq)]
pub struct Solution {
    pub ranks: [u16; Circuit::STATES],
    pub replies: [u8; Circuit::REPLIES],
    pub attacks: [u8; Circuit::STATES],
}

// Ranks, replies and attacks of a circuit. One with too many inputs counts as the empty circuit.
pub fn solve(c: Circuit) -> Solution
    ensures { result ≡ solution_of (circuit_game (solvable (meant c))) }
{
    solve_net(net::make(c).as_slice())
}
