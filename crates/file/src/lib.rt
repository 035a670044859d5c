// The one door to a reader (01, "What the library takes and gives"): bytes to a circuit, or number and place.
#![tactic(auto)]

ghost use Rattle.circuit.specs.Answer.{ReadAs};
ghost use Rattle.file.specs.CircuitIn.{circuit_in};

use circuit::{Circuit, Refusal};

// Reads a file of any content.
pub fn read(file: &[u8]) -> Result<Circuit, Refusal>
    ensures { ReadAs (circuit_in file.now) result }
{
    reader::read::read(file)
}
