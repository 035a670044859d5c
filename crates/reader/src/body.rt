// What the lines before the symbols say (01, "The file", rule 2).
ghost use Rattle.std.specs.Prelude.{ℕ, ◌<◌, ◌*◌, ◌+◌};
ghost use Rattle.circuit.specs.Limits.{base};
ghost use Rattle.reader.specs.Inner.Rows.{cell};

use circuit::Circuit;

// Three numbers of each line: its own literal or the output's, then next state or operands; 0 where there is none. A mark for each variable
// that is defined. And where the line behind them starts.
#[derive(Clone, Copy)]
pub(crate) struct Body {
    pub(crate) rows: [[u16; 3]; Circuit::VALUES],
    pub(crate) defined: [u8; Circuit::VALUES],
    pub(crate) behind: usize,
    ghost literals: { (j which : ℕ) → cell rows j which < 2 * base.variable + 2 },
}
