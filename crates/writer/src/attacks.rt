// The certificate of an unrealizable circuit (01, "The certificate"): kinds 1 and 4.
ghost use Rattle.std.specs.Prelude.{ℕ, ◌*◌, ◌^◌, ◌<◌, ◌≤◌, ◌≡◌, [], ◌∷◌, ◌++◌, false, get_or, take};
ghost use Rattle.bits.specs.Digits.{digits};
ghost use Rattle.bits.specs.InTurn.{in_turn};
ghost use Rattle.bits.specs.Wrote.{put_at};
ghost use Rattle.circuit.specs.Circuit.{Circuit};
ghost use Rattle.circuit.specs.Limits.{base};
ghost use Rattle.circuit.specs.Outcome.{taken};
ghost use Rattle.game.specs.CircuitGame.{is_realizable};
ghost use Rattle.writer.specs.Answer.{CertifiedAs};
ghost use Rattle.writer.specs.Inner.Rows.{attack_row};
ghost use Rattle.writer.specs.Inner.Solved.{Few, Solved};

use crate::Certified;
use crate::written::Records;
use below::{filled, front};
use circuit::Refusal;
use circuit::counts::{Counts, numbers};
use page::fit;
use put::put_bytes;
use records::Kind;
use solver::Solution;

// Three bytes for each state.
const ROWS: usize = 3 * circuit::Circuit::STATES;

#[tactic(auto, using(crate::proofs::Laws::Solved::few))]
pub(crate) fn certify_attacks(
    counts: Counts,
    solution: &Solution,
    file: &[u8],
    out: &mut [u8],
) -> Result<Certified, Refusal>
    requires { Few counts }
    ensures { (kind : ℕ) (c : Circuit) → Solved c counts solution.now → is_realizable c ≡ false
        → CertifiedAs kind file.now (taken c) out.old out.new result }
{
    let states = numbers(counts.latches);
    let rows = rows_of(solution, states);
    let records = [
        (Kind::Circuit, file),
        (Kind::Attacks, front(&rows, 3 * states)),
    ];
    let count = fit(out, &Records(&records))?;
    Ok(Certified::Unrealizable(count))
}

// A rank, little-endian, and an attack of each of the first states.
#[tactic(auto, using(crate::proofs::Laws::Rows::rows_in_front))]
fn rows_of(solution: &Solution, states: usize) -> [u8; ROWS]
    requires { states ≤ 2 ^ base.latches }
    ensures { take (3 * states) result
        ≡ in_turn (attack_row (λ s. get_or solution.now.ranks s 0) (λ s. get_or solution.now.attacks s 0)) states }
{
    let mut rows = filled(0);
    for s in 0..states {
        put_row(&mut rows, s, solution.ranks[s], solution.attacks[s]);
    }
    rows
}

// The row of a state: its rank, little-endian, and its attack.
#[tactic(auto, unfolding(bits::specs::Digits::digits))]
fn put_row(rows: &mut [u8; ROWS], s: usize, rank: u16, attack: u8)
    requires { s < 2 ^ base.latches }
    ensures { rows.new ≡ put_at rows.old (3 * s) (digits 256 2 rank ++ (attack ∷ [])) }
{
    let [low, high] = rank.to_le_bytes();
    put_bytes(rows, 3 * s, &[low, high, attack]);
}
