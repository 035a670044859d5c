// The rest of a file, behind a header that keeps the limits of a circuit (01, "The file", rules 2 to 6).
ghost use Rattle.std.specs.Prelude.{◌+◌, ◌≡◌, ◌≤◌, length, take, drop};
ghost use Rattle.circuit.specs.Limits.{base};
ghost use Rattle.lines.specs.Inner.Headed.{said};
ghost use Rattle.reader.specs.Inner.AllLines.{line_count};
ghost use Rattle.reader.specs.Inner.Few.{Few};

use crate::body::Body;
use lines::header::Header;

#[derive(Clone, Copy)]
pub(crate) struct Rest<'a> {
    pub(crate) header: Header,
    pub(crate) bytes: &'a [u8],
    ghost few: { Few (said header) },
    ghost short: { length bytes.now ≤ base.file },
}

impl Rest<'_> {
    pub(crate) fn inputs(&self) -> usize
        ensures { result ≡ self.now.header.inputs }
    {
        self.header.inputs as usize
    }

    pub(crate) fn latches(&self) -> usize
        ensures { result ≡ self.now.header.latches }
    {
        self.header.latches as usize
    }

    pub(crate) fn gates(&self) -> usize
        ensures { result ≡ self.now.header.gates }
    {
        self.header.gates as usize
    }

    // Where the line of the first gate stands among the rows.
    pub(crate) fn first_gate(&self) -> usize
        ensures { result ≡ self.now.header.inputs + self.now.header.latches + 1 }
    {
        self.inputs() + self.latches() + 1
    }

    // How many lines stand before the symbols: inputs, latches, the output and gates.
    pub(crate) fn line_count(&self) -> usize
        ensures { result ≡ line_count (said self.now.header) }
    {
        self.first_gate() + self.gates()
    }

    // The rows of the gates' lines.
    pub(crate) fn gate_rows<'a>(&self, body: &'a Body) -> &'a [[u16; 3]]
        ensures rows { result.now ≡ take self.now.header.gates (drop (self.now.header.inputs + self.now.header.latches + 1) body.now.rows) }
        ensures all { length result.now ≡ self.now.header.gates }
    {
        &body.rows[self.first_gate()..][..self.gates()]
    }
}
