// The library for other languages (01, "What the library takes and gives"): each function is the one that it calls, over plain numbers and
// lent bytes. In an answer number 0 says that nothing was refused; after a refusal all but number and place is 0. The crate `capi_c` exports
// these functions under their names.
#![tactic(auto)]

mod plain;

ghost use Rattle.std.specs.Prelude.{◌≡◌, length, drop};
ghost use Rattle.circuit.specs.Answer.{buffer_after, count_of};
ghost use Rattle.checker.specs.Answer.{answer_of};
ghost use Rattle.file.specs.CircuitIn.{circuit_in};
ghost use Rattle.printer.specs.FilePrinted.{file_printed};
ghost use Rattle.records.specs.AttackTable.{stored_rank, stored_attack};
ghost use Rattle.records.specs.Passed.{reply_in};
ghost use Rattle.records.specs.Record.{split, reply_kind, packed_kind};
ghost use Rattle.records.specs.RegionBits.{holds_state};
ghost use Rattle.writer.specs.Answer.{certificate_for, verdict_for};
ghost use Rattle.capi.specs.Plain.{read_answer, step_answer, certify_answer, check_answer, print_answer, circuit_part};
ghost use Rattle.capi.specs.Stored.{stored_of};
ghost use Rattle.capi.specs.Stepped.{file_stepped};

use circuit::counts::Counts;
use records::passed::{Starts, packed_reply, reply};
use records::record::{Record, record_at};
use records::{Kind, ReplyKind};
use step::{Control, Reading};

// A reading of a file: its refusal, or L, U and C.
#[repr(C)]
#[derive(Clone, Copy, Default)]
pub struct ReadAnswer {
    pub number: u8,
    pub place: usize,
    pub latches: usize,
    pub readings: usize,
    pub controls: usize,
}

// A step: the file's refusal, or error and next state.
#[repr(C)]
#[derive(Clone, Copy, Default)]
pub struct StepAnswer {
    pub number: u8,
    pub place: usize,
    pub error: bool,
    pub next: u16,
}

// A certificate written: why nothing was, or the verdict and the count of bytes.
#[repr(C)]
#[derive(Clone, Copy, Default)]
pub struct CertifyAnswer {
    pub number: u8,
    pub place: usize,
    pub realizable: bool,
    pub bytes: usize,
}

// A check: its refusal, or the kind of the table (3 of replies, 5 of packed replies, 4 of attacks), where region and table start, L, U and C.
// Attacks have no region and tell no C.
#[repr(C)]
#[derive(Clone, Copy, Default)]
pub struct CheckAnswer {
    pub number: u8,
    pub place: usize,
    pub kind: u16,
    pub region: usize,
    pub table: usize,
    pub latches: usize,
    pub readings: usize,
    pub controls: usize,
}

// A print: why nothing was written, or the count of bytes.
#[repr(C)]
#[derive(Clone, Copy, Default)]
pub struct PrintAnswer {
    pub number: u8,
    pub place: usize,
    pub bytes: usize,
}

// A part of lent bytes.
#[repr(C)]
#[derive(Clone, Copy, Default)]
pub struct Part {
    pub start: usize,
    pub bytes: usize,
}

// Reads a file of any content.
pub fn krastopi_read(file: &[u8]) -> ReadAnswer
    ensures { result ≡ read_answer (circuit_in file.now) }
{
    file::read(file).into()
}

// A step of a file's circuit. Bits of state, reading and control above L, U and C aren't read.
pub fn krastopi_step(file: &[u8], state: u16, reading: u8, control: u8) -> StepAnswer
    ensures { result ≡ step_answer (file_stepped file.now state reading control) }
{
    file::read(file)
        .map(|c| step::step(c, state, Reading(reading), Control(control)))
        .into()
}

// Writes the certificate of a file at the front of a buffer, a byte for each reply. A refusal writes nothing.
pub fn krastopi_certify(file: &[u8], out: &mut [u8]) -> CertifyAnswer
    ensures value { result ≡ certify_answer (verdict_for reply_kind file.now (circuit_in file.now) (length out.old)) }
    ensures out_after { out.new ≡ buffer_after (certificate_for reply_kind file.now (circuit_in file.now)
        (length out.old)) out.old }
{
    writer::certify(ReplyKind::Bytes, file, out).into()
}

// The same with packed replies.
pub fn krastopi_certify_packed(file: &[u8], out: &mut [u8]) -> CertifyAnswer
    ensures value { result ≡ certify_answer (verdict_for packed_kind file.now (circuit_in file.now) (length out.old)) }
    ensures out_after { out.new ≡ buffer_after (certificate_for packed_kind file.now (circuit_in file.now)
        (length out.old)) out.old }
{
    writer::certify(ReplyKind::Packed, file, out).into()
}

// Whether a certificate passes for a file.
pub fn krastopi_check<'a>(file: &'a [u8], certificate: &'a [u8]) -> CheckAnswer
    ensures { result ≡ check_answer (answer_of file.now certificate.now) }
{
    checker::check(file, certificate).into()
}

// Prints the circuit of a file at the front of a buffer. A refusal writes nothing.
pub fn krastopi_print(file: &[u8], out: &mut [u8]) -> PrintAnswer
    ensures value { result ≡ print_answer (count_of (file_printed file.now (length out.old))) }
    ensures out_after { out.new ≡ buffer_after (file_printed file.now (length out.old)) out.old }
{
    printer::print(file, out).into()
}

// The circuit record of a certificate; nothing where the first record is cut short or of another kind.
pub fn krastopi_circuit_record(certificate: &[u8]) -> Part
    ensures { result ≡ circuit_part (split certificate.now) }
{
    match record_at(certificate, 0) {
        Some(Record { kind, contents }) if kind == Kind::Circuit.number() => {
            let length = contents.end - contents.start;
            Part {
                start: contents.start,
                bytes: length,
            }
        }
        _ => Part::default(),
    }
}

// Whether the stored region holds a state. This and the next three take what the check answered whole, so that no start or count can stand
// for another; bytes that aren't there count as 0, and bits of state and reading above L and U aren't read.
pub fn krastopi_region_bit(certificate: &[u8], passed: CheckAnswer, state: usize) -> bool
    ensures { result ≡ holds_state (drop passed.region certificate.now) passed.latches state }
{
    records::passed::region_bit(certificate, passed.region, passed.latches, state)
}

// The reply to a reading at a state, by the kind of the table: the stored one inside the stored region, 0 outside.
#[tactic(auto, unfolding(crate::specs::Stored::stored_of, records::specs::Passed::reply_in))]
pub fn krastopi_reply(certificate: &[u8], passed: CheckAnswer, state: usize, reading: usize) -> u8
    ensures { result ≡ reply_in (drop passed.region certificate.now) passed.latches
        (stored_of passed (drop passed.table certificate.now)) state reading }
{
    let starts = Starts {
        region: passed.region,
        replies: passed.table,
    };
    // C may give any number for a kind.
    if passed.kind == Kind::Packed.number() {
        let counts = Counts {
            latches: passed.latches,
            readings: passed.readings,
            controls: passed.controls,
        };
        packed_reply(certificate, starts, counts, state, reading)
    } else {
        reply(
            certificate,
            starts,
            passed.latches,
            passed.readings,
            state,
            reading,
        )
    }
}

// The stored rank of a state.
pub fn krastopi_rank(certificate: &[u8], passed: CheckAnswer, state: usize) -> u16
    ensures { result ≡ stored_rank (drop passed.table certificate.now) passed.latches state }
{
    records::passed::rank(certificate, passed.table, passed.latches, state)
}

// The stored attack of a state.
pub fn krastopi_attack(certificate: &[u8], passed: CheckAnswer, state: usize) -> u8
    ensures { result ≡ stored_attack (drop passed.table certificate.now) passed.latches state }
{
    records::passed::attack(certificate, passed.table, passed.latches, state)
}
