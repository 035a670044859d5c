// The circuit kind: a circuit as a value, what it lends, its limits, and the number and place of a refusal.
#![tactic(auto)]

pub mod counts;
pub mod lent;
pub mod limits;
pub mod numbers;
pub mod stored;

pub use lent::Lent;
pub use numbers::{Fault, Refusal};

// A circuit (01, "The file"; 02, T-01): counts and literals, inputs and latches in the order of the file, gates in order of evaluation; for each
// gate line of the file, which of the gates it is.
// Arrays are of numbers: of an array of structs in a struct the prover isn't told how long it is. What lies behind a count isn't read.
#[derive(Clone, Copy)]
pub struct Circuit {
    pub largest: u16,
    pub inputs: usize,
    pub latches: usize,
    pub gates: usize,
    pub input: [u16; Circuit::INPUTS],
    pub controllable: [u8; Circuit::INPUTS],
    pub latch: [u16; Circuit::LATCHES],
    pub next: [u16; Circuit::LATCHES],
    pub output: u16,
    pub gate: [u16; Circuit::VARIABLES],
    pub left: [u16; Circuit::VARIABLES],
    pub right: [u16; Circuit::VARIABLES],
    pub lines: [u16; Circuit::VARIABLES],
}

// The limits (01, "What the library takes and gives").
impl Circuit {
    pub const FILE: usize = 16384;

    pub const VARIABLES: usize = 1000;

    pub const LATCHES: usize = 10;

    pub const INPUTS: usize = 13;

    pub const UNCONTROLLABLE: usize = 5;

    pub const CONTROLLABLE: usize = 8;

    pub const OUTPUTS: usize = 1;

    // How many states, readings and controls there can be, and bytes of a region, replies, variables with the constant among them, and
    // positions that a symbol can name.
    pub const STATES: usize = 1 << Circuit::LATCHES;

    pub const READINGS: usize = 1 << Circuit::UNCONTROLLABLE;

    pub const CONTROLS: usize = 1 << Circuit::CONTROLLABLE;

    pub const REGION: usize = Circuit::STATES / 8;

    pub const REPLIES: usize = Circuit::STATES * Circuit::READINGS;

    pub const VALUES: usize = Circuit::VARIABLES + 1;

    pub const NAMES: usize = Circuit::INPUTS + Circuit::LATCHES + Circuit::OUTPUTS;
}
