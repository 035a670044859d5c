// L, U and C of the circuit that is solved (01, the table of limits): the circuit itself, or the empty one where it has too many inputs of
// a sort.
ghost use Rattle.std.specs.Prelude.{◌≤◌, ◌≡◌};
ghost use Rattle.circuit.specs.Counts.{counts_of};
ghost use Rattle.circuit.specs.Limits.{base};
ghost use Rattle.circuit.specs.Stored.{meant, solvable};

use circuit::Circuit;
use circuit::counts::{Counts, too_many};

pub fn counted(c: Circuit) -> Counts
    ensures value { result ≡ counts_of (solvable (meant c)) }
    ensures few_latches { result.latches ≤ base.latches }
    ensures few_readings { result.readings ≤ base.uncontrollable }
{
    let counts = c.lent().counts();
    if too_many(counts.readings, counts.controls) {
        Counts {
            latches: 0,
            readings: 0,
            controls: 0,
        }
    } else {
        counts
    }
}
