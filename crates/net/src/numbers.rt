// The numbers of a net, put where they stand.
ghost use Rattle.std.specs.Prelude.{◌+◌, [], ◌∷◌, map, ◌≡◌};
ghost use Rattle.std.proofs.lemmas.List.Edits.{sets};
ghost use Rattle.circuit.specs.Circuit.{Latch, controllable_count, uncontrollable_count, latch_count};
ghost use Rattle.circuit.specs.Stored.{meant};
ghost use Rattle.net.specs.Inner.NamesIn.{names_in};
ghost use Rattle.net.specs.NetOf.{gate_start, net_literal, name_gates, operands_of};

use crate::Net;
use crate::names::Names;
use below::front;
use circuit::Circuit;

// Puts the operands of the gates behind the latches, and names each gate.
#[tactic(auto, using(crate::proofs::Laws::Putting::gates_put), unfolding(circuit::specs::Counts::counts_of, crate::specs::NetOf::gate_start))]
pub(crate) fn put_gates(numbers: &mut [u16; Net::NUMBERS], names: &mut Names, c: &Circuit)
    ensures numbers_after { numbers.new ≡ sets numbers.old (4 + latch_count (meant c.now))
        (operands_of (meant c.now).gates (gate_start (meant c.now)) (names_in names.old.given)) }
    ensures names_after { names_in names.new.given
        ≡ name_gates (meant c.now).gates (gate_start (meant c.now)) (names_in names.old.given) }
{
    let counts = c.lent().counts();
    let start = 4 + counts.latches;
    let first = 1 + counts.controls + counts.readings + counts.latches;
    for (i, gate) in front(&c.gate, c.gates).iter().enumerate() {
        numbers[start + 2 * i] = names.literal(c.left[i]);
        numbers[start + 2 * i + 1] = names.literal(c.right[i]);
        names.name(*gate, first + i);
    }
}

// Puts the next-state literals of the latches.
#[tactic(auto, using(crate::proofs::Laws::Putting::nexts_put))]
pub(crate) fn put_nexts(numbers: &mut [u16; Net::NUMBERS], names: &Names, c: &Circuit)
    ensures { numbers.new ≡ sets numbers.old 4
        (map (λ (l : Latch). net_literal (names_in names.now.given) l.next) (meant c.now).latches) }
{
    for (i, next) in front(&c.next, c.latches).iter().enumerate() {
        numbers[4 + i] = names.literal(*next);
    }
}

// Puts C, U, L and the output's literal.
#[tactic(auto, using(crate::proofs::Laws::Room::heads), unfolding(circuit::specs::Counts::counts_of))]
pub(crate) fn put_head(numbers: &mut [u16; Net::NUMBERS], names: &Names, c: &Circuit)
    ensures { numbers.new ≡ sets numbers.old 0
        (controllable_count (meant c.now) ∷ uncontrollable_count (meant c.now) ∷ latch_count (meant c.now)
        ∷ net_literal (names_in names.now.given) (meant c.now).output ∷ []) }
{
    let counts = c.lent().counts();
    numbers[0] = counts.controls as u16;
    numbers[1] = counts.readings as u16;
    numbers[2] = counts.latches as u16;
    numbers[3] = names.literal(c.output);
}
