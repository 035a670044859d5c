// What lent lists of numbers say of a circuit (01, "The file"), at one place: a number that isn't there counts as 0.
ghost use Rattle.std.specs.Prelude.{min, not, ◌≡◌, eqb, get_or};
ghost use Rattle.circuit.specs.Limits.{base};
ghost use Rattle.circuit.specs.Stored.{literal_of};

use crate::Circuit;
use below::get_or;

// A literal of a circuit: one that is too large counts as 0.
#[tactic(auto, unfolding(crate::specs::Stored::literal_of, crate::specs::Literal::too_large))]
pub fn literal(l: u16) -> u16
    ensures { result ≡ literal_of l }
{
    if usize::from(l) < 2 * Circuit::VALUES {
        l
    } else {
        0
    }
}

pub fn literal_at(literals: &[u16], i: usize) -> u16
    ensures { result ≡ literal_of (get_or literals.now i 0) }
{
    literal(get_or(literals, i, 0))
}

// Whether an input is controllable.
pub fn is_controllable(controllable: &[u8], i: usize) -> bool
    ensures { result ≡ not (eqb (get_or controllable.now i 0) 0) }
{
    get_or(controllable, i, 0) != 0
}

// How many latches are read: no more than a circuit may have.
pub fn latches_of(n: usize) -> usize
    ensures { result ≡ min n base.latches }
{
    n.min(Circuit::LATCHES)
}
