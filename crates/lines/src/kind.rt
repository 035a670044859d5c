// The kinds of line before the symbols (01, "The file", rules 2 to 4), and the order in which they stand.
ghost use Rattle.std.specs.Prelude.{◌≡◌};
ghost use Rattle.lines.specs.Inner.Headed.{said};
ghost use Rattle.lines.specs.Inner.Kinds.{form_of, kind_at};

use crate::header::Header;

#[derive(Clone, Copy, Debug, PartialEq, Eq)]
pub enum Kind {
    Input,
    Latch,
    Output,
    Gate,
}

// What a kind asks: from how many numbers to how many; and whether the first defines a variable.
#[derive(Clone, Copy, Debug, PartialEq, Eq)]
pub struct Form {
    pub fewest: usize,
    pub most: usize,
    pub defines: bool,
}

pub fn form_of(kind: Kind) -> Form
    ensures { result ≡ form_of kind }
{
    let count = match kind {
        Kind::Input | Kind::Output => 1,
        Kind::Latch => 2,
        Kind::Gate => 3,
    };
    Form {
        fewest: count,
        most: count,
        defines: kind != Kind::Output,
    }
}

// The kind of a line, counted from the one behind the header: inputs, latches, the output, gates.
#[tactic(auto, unfolding(crate::specs::Inner::Kinds::kind_at))]
pub fn kind_of(h: Header, j: usize) -> Kind
    ensures { result ≡ kind_at (said h) j }
{
    let inputs = h.inputs as usize;
    let behind = inputs + h.latches as usize;
    if j < inputs {
        Kind::Input
    } else if j < behind {
        Kind::Latch
    } else if j == behind {
        Kind::Output
    } else {
        Kind::Gate
    }
}
