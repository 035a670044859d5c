// The writer of certificates (01, "The certificate"; 02, T-07): kinds 1, 2 and 3 or 5 for a realizable circuit, kinds 1, 4 for an unrealizable
// one.
#![tactic(auto)]

mod attacks;
mod replies;
mod written;

ghost use Rattle.circuit.specs.Outcome.{taken};
ghost use Rattle.circuit.specs.Stored.{meant, solvable};
ghost use Rattle.file.specs.CircuitIn.{circuit_in};
ghost use Rattle.records.specs.Kinds.{reply_kind_number};
ghost use Rattle.writer.specs.Answer.{CertifiedAs};

use attacks::certify_attacks;
use circuit::{Circuit, Refusal};
use records::ReplyKind;
use replies::certify_replies;

// What a writer of certificates answers: the verdict with the count of bytes.
#[derive(Clone, Copy, Debug, PartialEq, Eq)]
pub enum Certified {
    Realizable(usize),
    Unrealizable(usize),
}

// Writes the certificate of a file at the front of a lent buffer, its replies as a reply record of a kind has them: the file's refusals, then
// 10. A refusal writes nothing.
pub fn certify(kind: ReplyKind, file: &[u8], out: &mut [u8]) -> Result<Certified, Refusal>
    ensures { CertifiedAs (reply_kind_number kind) file.now (circuit_in file.now) out.old out.new result }
{
    let c = file::read(file)?;
    certify_circuit(kind, c, file, out)
}

// Writes the certificate of a circuit that was read from `file` at the front of a lent buffer. One with more inputs of a sort than a
// circuit may have counts as the empty circuit. The rank of state 0 says which certificate it is. Where the buffer is too short, nothing
// is written.
fn certify_circuit(
    kind: ReplyKind,
    c: Circuit,
    file: &[u8],
    out: &mut [u8],
) -> Result<Certified, Refusal>
    ensures { CertifiedAs (reply_kind_number kind) file.now (taken (solvable (meant c))) out.old out.new result }
{
    let counts = solver::counts::counted(c);
    let solution = solver::solve(c);
    if solution.ranks[0] == 0 {
        certify_replies(kind, counts, &solution, file, out)
    } else {
        certify_attacks(counts, &solution, file, out)
    }
}
