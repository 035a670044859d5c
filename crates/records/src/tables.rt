// The shape of a certificate (01, "The certificate"; 02, T-07): kinds 1, 2 and a reply record of kind 3 or 5, or kinds 1, 4, back to back,
// and nothing follows.
ghost use Rattle.std.specs.Prelude.{◌≡◌};
ghost use Rattle.records.specs.Shape.{shape_of};
ghost use Rattle.records.specs.Tables.{accepted_kinds, tables_of};
ghost use Rattle.records.specs.Inner.Behind.{BehindCircuit, BehindRegion};

use crate::record::{Span, record_at};
use crate::{Kind, ReplyKind};

// Where the contents of a certificate's records lie, and the kind of the reply record.
#[derive(Clone, Copy, Debug, PartialEq, Eq)]
pub enum Shape {
    Replies {
        circuit: Span,
        region: Span,
        table: Span,
        kind: ReplyKind,
    },
    Attacks {
        circuit: Span,
        table: Span,
    },
}

// The shape of a certificate, if it has one.
pub fn shape_of(certificate: &[u8]) -> Option<Shape>
    ensures { result ≡ shape_of (tables_of accepted_kinds certificate.now) }
{
    let first = record_at(certificate, 0)?;
    if first.kind != Kind::Circuit.number() {
        return None;
    }
    behind_circuit(certificate, first.contents)
}

// What stands behind the circuit record.
fn behind_circuit(certificate: &[u8], circuit: Span) -> Option<Shape>
    ensures { BehindCircuit certificate.now circuit result }
{
    let second = record_at(certificate, circuit.end)?;
    let table = second.contents;
    match Kind::try_from(second.kind).ok()? {
        Kind::Region => behind_region(certificate, circuit, second.contents),
        Kind::Attacks => (table.end == certificate.len()).then_some(Shape::Attacks {
            circuit,
            table,
        }),
        _ => None,
    }
}

// What stands behind the region record.
fn behind_region(certificate: &[u8], circuit: Span, region: Span) -> Option<Shape>
    ensures { BehindRegion certificate.now circuit region result }
{
    let third = record_at(certificate, region.end)?;
    let table = third.contents;
    let kind = ReplyKind::try_from(third.kind).ok()?;
    (table.end == certificate.len()).then_some(Shape::Replies {
        circuit,
        region,
        table,
        kind,
    })
}
