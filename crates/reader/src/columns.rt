// The circuit's columns, taken out of the rows; those of the gates in their order of evaluation (02, T-01).
ghost use Rattle.std.specs.Prelude.{◌≤◌, ◌<◌, ◌≡◌, List, [], ℕ, map, length, get_or, take};
ghost use Rattle.below.specs.Table.{table};
ghost use Rattle.circuit.specs.Limits.{base};
ghost use Rattle.circuit.specs.Stored.{padded};
ghost use Rattle.lines.specs.Inner.Headed.{said};
ghost use Rattle.order.specs.Place.{place_in};
ghost use Rattle.reader.specs.Inner.OrderedAs.{AllPlaced, InOrder};
ghost use Rattle.reader.specs.Inner.ValueOf.{value_of};

use crate::body::Body;
use crate::rest::Rest;
use below::filled;
use circuit::Circuit;

// One of the three numbers of each row, and zeros behind them.
fn column<const N: usize>(rows: &[[u16; 3]], which: usize) -> [u16; N]
    requires room { length rows.now ≤ N }
    requires third { which < 3 }
    ensures { result ≡ padded N (map (λ (row : List ℕ). get_or row which 0) rows.now) }
{
    let mut out: [u16; N] = filled(0);
    for (k, row) in rows.iter().enumerate() {
        out[k] = row[which];
    }
    out
}

// The gates' rows in an order.
fn ordered(rows: &[[u16; 3]], order: &[u16]) -> [[u16; 3]; Circuit::VARIABLES]
    requires inside { InOrder order.now (length rows.now) }
    requires few { length rows.now ≤ base.variable }
    ensures { take (length order.now) result ≡ map (λ i. get_or rows.now i []) order.now }
{
    let mut out: [[u16; 3]; Circuit::VARIABLES] = filled([0; 3]);
    for (k, gate) in order.iter().enumerate() {
        out[k] = rows[usize::from(*gate)];
    }
    out
}

// For each gate of an order its place there.
fn places(order: &[u16]) -> [u16; Circuit::VARIABLES]
    requires all { InOrder order.now (length order.now) }
    requires few { length order.now ≤ base.variable }
    ensures { result ≡ padded base.variable (table (place_in order.now) (length order.now)) }
{
    let mut out: [u16; Circuit::VARIABLES] = filled(0);
    for (k, gate) in order.iter().enumerate() {
        out[usize::from(*gate)] = k as u16;
    }
    out
}

impl Rest<'_> {
    // The circuit that rows, the gates' order and flags say.
    pub(crate) fn circuit_of(
        &self,
        body: &Body,
        order: &[u16; Circuit::VARIABLES],
        controllable: [u8; Circuit::INPUTS],
    ) -> Circuit
        requires { AllPlaced (said self.now.header) body.now.rows order.now }
        ensures { result ≡ value_of (said self.now.header) body.now.rows (take self.now.header.gates order.now) controllable }
    {
        let inputs = self.inputs();
        let latches = self.latches();
        let gates = self.gates();
        let order = &order[..gates];
        let (input_rows, behind) = body.rows.split_at(inputs);
        let (latch_rows, behind) = behind.split_at(latches);
        let gate_rows = ordered(self.gate_rows(body), order);
        let gate_rows = &gate_rows[..gates];
        Circuit {
            largest: self.header.largest as u16,
            inputs,
            latches,
            gates,
            input: column(input_rows, 0),
            controllable,
            latch: column(latch_rows, 0),
            next: column(latch_rows, 1),
            output: behind[0][0],
            gate: column(gate_rows, 0),
            left: column(gate_rows, 1),
            right: column(gate_rows, 2),
            lines: places(order),
        }
    }
}
