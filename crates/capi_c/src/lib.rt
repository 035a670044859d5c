// The library as C links it: each export is the function of its name in `capi`, with the promise written there. A slice is a pointer and a
// count, and the structs of the answers are C's.
#![tactic(auto)]

ghost use Rattle.std.specs.Prelude.{◌≡◌, length, drop};
ghost use Rattle.circuit.specs.Answer.{buffer_after, count_of};
ghost use Rattle.checker.specs.Answer.{answer_of};
ghost use Rattle.file.specs.CircuitIn.{circuit_in};
ghost use Rattle.printer.specs.FilePrinted.{file_printed};
ghost use Rattle.records.specs.AttackTable.{stored_rank, stored_attack};
ghost use Rattle.records.specs.Passed.{reply_in};
ghost use Rattle.records.specs.Record.{split, reply_kind, packed_kind};
ghost use Rattle.records.specs.RegionBits.{holds_state};
ghost use Rattle.writer.specs.Answer.{certificate_for, verdict_for};
ghost use Rattle.capi.specs.Plain.{read_answer, step_answer, certify_answer, check_answer, print_answer, circuit_part};
ghost use Rattle.capi.specs.Stored.{stored_of};
ghost use Rattle.capi.specs.Stepped.{file_stepped};

use capi::{CertifyAnswer, CheckAnswer, Part, PrintAnswer, ReadAnswer, StepAnswer};

// Reads a file of any content.
#[unsafe(no_mangle)]
pub extern "C" fn krastopi_read(file: &[u8]) -> ReadAnswer
    ensures { result ≡ read_answer (circuit_in file.now) }
{
    capi::krastopi_read(file)
}

// A step of a file's circuit. Bits of state, reading and control above L, U and C aren't read.
#[unsafe(no_mangle)]
pub extern "C" fn krastopi_step(file: &[u8], state: u16, reading: u8, control: u8) -> StepAnswer
    ensures { result ≡ step_answer (file_stepped file.now state reading control) }
{
    capi::krastopi_step(file, state, reading, control)
}

// Writes the certificate of a file at the front of a buffer, a byte for each reply. A refusal writes nothing.
#[unsafe(no_mangle)]
pub extern "C" fn krastopi_certify(file: &[u8], out: &mut [u8]) -> CertifyAnswer
    ensures value { result ≡ certify_answer (verdict_for reply_kind file.now (circuit_in file.now) (length out.old)) }
    ensures out_after { out.new ≡ buffer_after (certificate_for reply_kind file.now (circuit_in file.now)
        (length out.old)) out.old }
{
    capi::krastopi_certify(file, out)
}

// The same with packed replies.
#[unsafe(no_mangle)]
pub extern "C" fn krastopi_certify_packed(file: &[u8], out: &mut [u8]) -> CertifyAnswer
    ensures value { result ≡ certify_answer (verdict_for packed_kind file.now (circuit_in file.now) (length out.old)) }
    ensures out_after { out.new ≡ buffer_after (certificate_for packed_kind file.now (circuit_in file.now)
        (length out.old)) out.old }
{
    capi::krastopi_certify_packed(file, out)
}

// Whether a certificate passes for a file.
#[unsafe(no_mangle)]
pub extern "C" fn krastopi_check<'a>(file: &'a [u8], certificate: &'a [u8]) -> CheckAnswer
    ensures { result ≡ check_answer (answer_of file.now certificate.now) }
{
    capi::krastopi_check(file, certificate)
}

// Prints the circuit of a file at the front of a buffer. A refusal writes nothing.
#[unsafe(no_mangle)]
pub extern "C" fn krastopi_print(file: &[u8], out: &mut [u8]) -> PrintAnswer
    ensures value { result ≡ print_answer (count_of (file_printed file.now (length out.old))) }
    ensures out_after { out.new ≡ buffer_after (file_printed file.now (length out.old)) out.old }
{
    capi::krastopi_print(file, out)
}

// The circuit record of a certificate; nothing where the first record is cut short or of another kind.
#[unsafe(no_mangle)]
pub extern "C" fn krastopi_circuit_record(certificate: &[u8]) -> Part
    ensures { result ≡ circuit_part (split certificate.now) }
{
    capi::krastopi_circuit_record(certificate)
}

// Whether the stored region holds a state. This and the next three take what the check answered whole, so that no start or count can stand
// for another; bytes that aren't there count as 0, and bits of state and reading above L and U aren't read.
#[unsafe(no_mangle)]
pub extern "C" fn krastopi_region_bit(certificate: &[u8], passed: CheckAnswer, state: usize) -> bool
    ensures { result ≡ holds_state (drop passed.region certificate.now) passed.latches state }
{
    capi::krastopi_region_bit(certificate, passed, state)
}

// The reply to a reading at a state, by the kind of the table: the stored one inside the stored region, 0 outside.
#[unsafe(no_mangle)]
pub extern "C" fn krastopi_reply(
    certificate: &[u8],
    passed: CheckAnswer,
    state: usize,
    reading: usize,
) -> u8
    ensures { result ≡ reply_in (drop passed.region certificate.now) passed.latches
        (stored_of passed (drop passed.table certificate.now)) state reading }
{
    capi::krastopi_reply(certificate, passed, state, reading)
}

// The stored rank of a state.
#[unsafe(no_mangle)]
pub extern "C" fn krastopi_rank(certificate: &[u8], passed: CheckAnswer, state: usize) -> u16
    ensures { result ≡ stored_rank (drop passed.table certificate.now) passed.latches state }
{
    capi::krastopi_rank(certificate, passed, state)
}

// The stored attack of a state.
#[unsafe(no_mangle)]
pub extern "C" fn krastopi_attack(certificate: &[u8], passed: CheckAnswer, state: usize) -> u8
    ensures { result ≡ stored_attack (drop passed.table certificate.now) passed.latches state }
{
    capi::krastopi_attack(certificate, passed, state)
}
