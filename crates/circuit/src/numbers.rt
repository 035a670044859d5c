// A refusal (01, "The numbers"): which row of the table, and where.
ghost use Rattle.std.specs.Prelude.{◌≡◌};
ghost use Rattle.circuit.specs.Fault.{number_of};

use std::fmt;

// The rows of the table, in the order of their numbers.
#[derive(Clone, Copy, Debug, PartialEq, Eq)]
pub enum Fault {
    FileTooLong,
    BadHeader,
    HeaderLimit,
    BadLine,
    BadLiteral,
    DefinedTwice,
    NotDefined,
    BadSymbol,
    TooManyInputs,
    NoRoom,
    BadShape,
    OtherCircuit,
    BadTable,
    BadReset,
    BrokenStep,
    GateCircle,
}

impl Fault {
    pub fn number(self) -> u8
        ensures { result ≡ number_of self }
    {
        match self {
            Fault::FileTooLong => 1,
            Fault::BadHeader => 2,
            Fault::HeaderLimit => 3,
            Fault::BadLine => 4,
            Fault::BadLiteral => 5,
            Fault::DefinedTwice => 6,
            Fault::NotDefined => 7,
            Fault::BadSymbol => 8,
            Fault::TooManyInputs => 9,
            Fault::NoRoom => 10,
            Fault::BadShape => 11,
            Fault::OtherCircuit => 12,
            Fault::BadTable => 13,
            Fault::BadReset => 14,
            Fault::BrokenStep => 15,
            Fault::GateCircle => 16,
        }
    }
}

#[derive(Clone, Copy, Debug, PartialEq, Eq)]
pub struct Refusal {
    pub fault: Fault,
    pub place: usize,
}

// As the programs print it (01, "Listings to compare").
impl fmt::Display for Refusal {
    ghost use Rattle.std.specs.Prelude.{◌++◌, Some, codes};
    ghost use Rattle.std.specs.Fmt.{decimal};

    ghost output = { λ r. Some (codes "refused " ++ decimal (number_of r.fault) ++ codes " " ++ decimal r.place) };

    fn fmt<W: fmt::Write>(&self, f: &mut fmt::Formatter<W>) -> fmt::Result {
        write!(f, "refused {} {}", self.fault.number(), self.place)
    }
}
