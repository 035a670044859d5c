// The certificate of a realizable circuit (01, "The certificate"; 02, T-07): kinds 1, 2 and a reply record of a kind.
ghost use Rattle.std.specs.Prelude.{◌≤◌, ◌≡◌, true, length, take};
ghost use Rattle.circuit.specs.Circuit.{Circuit};
ghost use Rattle.circuit.specs.Limits.{base};
ghost use Rattle.circuit.specs.Outcome.{taken};
ghost use Rattle.game.specs.CircuitGame.{is_realizable};
ghost use Rattle.records.specs.Kinds.{reply_kind_number};
ghost use Rattle.writer.specs.Answer.{CertifiedAs};
ghost use Rattle.writer.specs.Inner.Cells.{cells_of};
ghost use Rattle.writer.specs.Inner.Solved.{Few, Solved};

use crate::Certified;
use crate::written::Records;
use below::{filled, front};
use circuit::Refusal;
use circuit::counts::{Counts, numbers};
use page::fit;
use put::packed::pack;
use put::put_bytes;
use records::{Kind, ReplyKind};
use region::region_of;
use solver::Solution;

#[tactic(auto, using(crate::proofs::Laws::Solved::few))]
pub(crate) fn certify_replies(
    kind: ReplyKind,
    counts: Counts,
    solution: &Solution,
    file: &[u8],
    out: &mut [u8],
) -> Result<Certified, Refusal>
    requires { Few counts }
    ensures { (c : Circuit) → Solved c counts solution.now → is_realizable c ≡ true
        → CertifiedAs (reply_kind_number kind) file.now (taken c) out.old out.new result }
{
    let states = numbers(counts.latches);
    let region = region_of(&solution.ranks, states);
    let mut cells: [u8; circuit::Circuit::REPLIES] = filled(0);
    let n = states * numbers(counts.readings);
    let bytes = put_cells(&mut cells, kind, &solution.replies, n, counts.controls);
    let records = [
        (Kind::Circuit, file),
        (Kind::Region, front(&region, states.div_ceil(8))),
        (Kind::from(kind), front(&cells, bytes)),
    ];
    let count = fit(out, &Records(&records))?;
    Ok(Certified::Realizable(count))
}

// Puts the first n replies at the front of the buffer, as a reply record of a kind has them, and answers how many bytes that are.
#[tactic(auto, using(crate::proofs::Laws::Cells::cells), unfolding(crate::specs::Inner::Cells::cells_of))]
fn put_cells(out: &mut [u8], kind: ReplyKind, replies: &[u8], n: usize, controls: usize) -> usize
    requires few_controls { controls ≤ base.controllable }
    requires room { n ≤ length out.old }
    ensures { take result out.new ≡ cells_of (reply_kind_number kind) replies.now n controls }
{
    match kind {
        ReplyKind::Bytes => put_bytes(out, 0, front(replies, n)),
        ReplyKind::Packed => pack(replies, controls, n, out, 0),
    }
}
