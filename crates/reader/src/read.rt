// Reading a file (01, "The numbers"): a circuit, or number and place.
ghost use Rattle.std.specs.Prelude.{◌≡◌};
ghost use Rattle.circuit.specs.Answer.{ReadAs};
ghost use Rattle.circuit.specs.Limits.{base};
ghost use Rattle.lines.specs.Inner.Headed.{said};
ghost use Rattle.reader.specs.Inner.CountedAs.{counted_as};
ghost use Rattle.reader.specs.Inner.LinesAs.{circuit_of_lines};
ghost use Rattle.text.specs.Header.{within_limits};
ghost use Rattle.text.specs.Line.{lines};
ghost use Rattle.text.specs.Read.{circuit_read, lines_read};

use crate::rest::Rest;
use circuit::counts::too_many;
use circuit::{Circuit, Fault, Refusal};
use fields::line::line_end;
use lines::header::{Header, header_line};

// A circuit that was read, if it hasn't too many inputs of a sort.
#[tactic(auto, unfolding(crate::specs::Inner::CountedAs::counted_as, circuit::specs::Counts::counts_of, circuit::specs::Circuit::too_many))]
fn counted(circuit: Circuit) -> Result<Circuit, Refusal>
    ensures { result ≡ counted_as circuit }
{
    let counts = circuit.lent().counts();
    if too_many(counts.readings, counts.controls) {
        return Err(Refusal {
            fault: Fault::TooManyInputs,
            place: 0,
        });
    }
    Ok(circuit)
}

impl Rest<'_> {
    // The circuit that the lines make, in the order of the numbers: lines, the late 7, 16, symbols, 9.
    fn circuit(&self) -> Result<Circuit, Refusal>
        ensures { ReadAs (circuit_of_lines (lines_read (said self.now.header) (lines self.now.bytes.now))) result }
    {
        let body = self.body()?;
        self.defined(&body)?;
        let order = self.order(&body)?;
        let flags = self.flags(body.behind)?;
        counted(self.circuit_of(&body, &order, flags))
    }
}

// Whether the header's numbers keep the limits.
#[tactic(auto, unfolding(text::specs::Header::within_limits))]
fn within(h: Header) -> bool
    ensures { result ≡ within_limits base (said h) }
{
    let inputs = h.inputs as usize;
    let latches = h.latches as usize;
    h.largest as usize <= Circuit::VARIABLES
        && inputs <= Circuit::INPUTS
        && latches <= Circuit::LATCHES
        && h.outputs as usize == Circuit::OUTPUTS
        && inputs + latches + h.gates as usize <= h.largest as usize
}

// Reads a file of any content: the circuit that its text means, or the number and the place that its faults call for.
pub fn read(file: &[u8]) -> Result<Circuit, Refusal>
    ensures { ReadAs (circuit_read base file.now) result }
{
    if Circuit::FILE < file.len() {
        return Err(Refusal {
            fault: Fault::FileTooLong,
            place: 0,
        });
    }
    let (line, bytes) = file.split_at(line_end(file, 0));
    let header = header_line(line).ok_or(Refusal {
        fault: Fault::BadHeader,
        place: 1,
    })?;
    if !within(header) {
        return Err(Refusal {
            fault: Fault::HeaderLimit,
            place: 1,
        });
    }
    Rest { header, bytes }.circuit()
}
