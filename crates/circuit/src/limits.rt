// Each limit of the circuit kind, tied to the definition that the contracts cite.
// No code of this repository calls them: they are public, and each is the proof that code and definition agree.
ghost use Rattle.std.specs.Prelude.{◌≡◌};
ghost use Rattle.circuit.specs.Limits.{base};

use crate::Circuit;

pub fn max_file() -> usize
    ensures { result ≡ base.file }
{
    Circuit::FILE
}

pub fn max_variable() -> usize
    ensures { result ≡ base.variable }
{
    Circuit::VARIABLES
}

pub fn max_latches() -> usize
    ensures { result ≡ base.latches }
{
    Circuit::LATCHES
}

pub fn max_inputs() -> usize
    ensures { result ≡ base.inputs }
{
    Circuit::INPUTS
}

pub fn max_uncontrollable() -> usize
    ensures { result ≡ base.uncontrollable }
{
    Circuit::UNCONTROLLABLE
}

pub fn max_controllable() -> usize
    ensures { result ≡ base.controllable }
{
    Circuit::CONTROLLABLE
}

pub fn outputs() -> usize
    ensures { result ≡ base.outputs }
{
    Circuit::OUTPUTS
}
