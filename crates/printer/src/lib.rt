// Prints a circuit (01, "The numbers", last paragraph): header, lines in the order read, a symbol for each controllable input.
#![tactic(auto)]

mod sections;

ghost use Rattle.std.specs.Prelude.{length};
ghost use Rattle.circuit.specs.Answer.{WrittenAs};
ghost use Rattle.circuit.specs.Stored.{meant_lent};
ghost use Rattle.text.specs.Printed.{printed};
ghost use Rattle.printer.specs.FilePrinted.{file_printed};

use circuit::stored::{latches_of, literal};
use circuit::{Circuit, Lent, Refusal};
use page::{Page, Text, fit};
use sections::{Gates, Inputs, Latches, Names};

// Prints the circuit of a file at the front of the buffer: the file's refusals, then 10. A refusal writes nothing.
pub fn print(file: &[u8], out: &mut [u8]) -> Result<usize, Refusal>
    ensures { WrittenAs (file_printed file.now (length out.old)) out.old out.new result }
{
    let circuit = file::read(file)?;
    fit(out, &CircuitText(circuit.lent()))
}

// A circuit, to be printed.
#[derive(Clone, Copy)]
struct CircuitText<'a>(Lent<'a>);

impl Text for CircuitText<'_> {
    ghost text = { λ p. printed (meant_lent p.0) };

    fn put(&self, page: &mut Page) {
        let circuit = self.0;
        let inputs = circuit.input.len();
        let latches = latches_of(circuit.latch.len());
        let gates = circuit.lines.len();
        page.bytes(b"aag ");
        page.line(&[
            usize::from(circuit.largest),
            inputs,
            latches,
            Circuit::OUTPUTS,
            gates,
        ]);
        page.in_turn(&Inputs(circuit), inputs);
        page.in_turn(&Latches(circuit), latches);
        page.line(&[usize::from(literal(circuit.output))]);
        page.in_turn(&Gates(circuit), gates);
        page.in_turn(&Names(circuit), inputs);
    }
}
