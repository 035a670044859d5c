// A record (01, "The certificate"): length first (4 bytes, little-endian, contents only), a two-byte kind, then the contents.
ghost use Rattle.std.specs.Prelude.{◌≡◌, drop};
ghost use Rattle.records.specs.Part.{bytes_of};
ghost use Rattle.records.specs.Record.{split};
ghost use Rattle.records.specs.RecordAt.{record_at};
ghost use Rattle.records.specs.CircuitRecord.{circuit_record};

use crate::{HEAD, Kind};
use below::{behind, front};

// Where the contents of a record lie.
#[derive(Clone, Copy, Debug, PartialEq, Eq)]
pub struct Span {
    pub start: usize,
    pub end: usize,
}

impl Span {
    // The bytes there; what isn't there is left out.
    pub fn bytes_of(self, bytes: &[u8]) -> &[u8]
        ensures { result.now ≡ bytes_of self bytes.now }
    {
        let size = self.end.saturating_sub(self.start);
        front(behind(bytes, self.start), size)
    }
}

// A record at a place: the number of its kind, and where its contents lie.
#[derive(Clone, Copy, Debug, PartialEq, Eq)]
pub struct Record {
    pub kind: u16,
    pub contents: Span,
}

// The record that starts at a place of a lent slice; none where it is cut short.
pub fn record_at(bytes: &[u8], at: usize) -> Option<Record>
    ensures { result ≡ record_at at (split (drop at bytes.now)) }
{
    let [a, b, c, d, low, high, rest @ ..] = bytes.get(at..)? else {
        return None;
    };
    let length = u32::from_le_bytes([*a, *b, *c, *d]) as usize;
    if rest.len() < length {
        return None;
    }
    let start = at + HEAD;
    Some(Record {
        kind: u16::from_le_bytes([*low, *high]),
        contents: Span {
            start,
            end: start + length,
        },
    })
}

// The circuit record, as that part of the lent certificate; nothing where the first record is cut short or of another kind.
pub fn circuit_record(certificate: &[u8]) -> &[u8]
    ensures { result.now ≡ circuit_record certificate.now }
{
    match record_at(certificate, 0) {
        Some(first) if first.kind == Kind::Circuit.number() => first.contents.bytes_of(certificate),
        _ => &[],
    }
}
