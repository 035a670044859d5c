// The check of a certificate (01, "The certificate" and "The numbers", 11 to 15). It never sees the solver.
#![tactic(auto)]

mod attacks;
mod replies;
mod sized;

ghost use Rattle.std.specs.Prelude.{◌≡◌};
ghost use Rattle.checker.specs.Answer.{checked_outcome, answer_of};
ghost use Rattle.checker.specs.Inner.FileNet.{FileNet};

use attacks::AttackTable;
use circuit::counts::Counts;
use circuit::{Fault, Refusal};
use records::record::circuit_record;
use records::tables::shape_of;
use records::{ReplyKind, Shape};
use replies::ReplyTables;
use sized::SizedNet;

// What a pass answers: where the tables start in the certificate, the kind of the reply record, and L, U and C, so that they can be read.
#[derive(Clone, Copy, Debug, PartialEq, Eq)]
pub enum Passed {
    Replies {
        region: usize,
        replies: usize,
        kind: ReplyKind,
        counts: Counts,
    },
    Attacks {
        table: usize,
        latches: usize,
        readings: usize,
    },
}

// Whether a certificate passes for a file: the file's refusals, then 11 to 15.
pub fn check(file: &[u8], certificate: &[u8]) -> Result<Passed, Refusal>
    ensures { checked_outcome result ≡ answer_of file.now certificate.now }
{
    let made = net::make(file::read(file)?);
    check_net(SizedNet::new(made.as_slice()), file, certificate)
}

// 11 and 12; then the tables are judged.
fn check_net(net: SizedNet<'_>, file: &[u8], certificate: &[u8]) -> Result<Passed, Refusal>
    requires { FileNet file.now net.numbers.now }
    ensures { checked_outcome result ≡ answer_of file.now certificate.now }
{
    let shape = shape_of(certificate).ok_or(refused(Fault::BadShape))?;
    if circuit_record(certificate) != file {
        return Err(refused(Fault::OtherCircuit));
    }
    match shape {
        Shape::Replies {
            region,
            table,
            kind,
            ..
        } => {
            let tables = ReplyTables {
                net,
                region: region.bytes_of(certificate),
                kind,
                table: table.bytes_of(certificate),
            };
            tables.check()?;
            Ok(Passed::Replies {
                region: region.start,
                replies: table.start,
                kind,
                counts: net.counts,
            })
        }
        Shape::Attacks { table, .. } => {
            let attacks = AttackTable {
                net,
                table: table.bytes_of(certificate),
            };
            attacks.check()?;
            Ok(Passed::Attacks {
                table: table.start,
                latches: net.counts.latches,
                readings: net.counts.readings,
            })
        }
    }
}

// A refusal that has no place of its own.
fn refused(fault: Fault) -> Refusal
    ensures { result ≡ record { fault = fault; place = 0 } }
{
    Refusal { fault, place: 0 }
}
