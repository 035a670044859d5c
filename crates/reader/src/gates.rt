// Which gates the operands of a gate are, by the rows of the gates' lines, and the order in which gates are evaluated (02, T-01).
ghost use Rattle.std.specs.Prelude.{◌+◌, ◌*◌, ◌<◌, ◌≡◌, take};
ghost use Rattle.circuit.specs.Limits.{base};
ghost use Rattle.text.specs.GateUses.{uses_of};
ghost use Rattle.lines.specs.Inner.Headed.{said};
ghost use Rattle.reader.specs.Inner.Definers.{Definers, definer_in};
ghost use Rattle.reader.specs.Inner.OrderedAs.{OrderedAs};
ghost use Rattle.reader.specs.Inner.Rows.{row_gates};

use crate::body::Body;
use crate::rest::Rest;
use below::filled;
use circuit::{Circuit, Fault, Refusal};
use order::order_of;

// Two numbers for each gate.
const USES: usize = 2 * Circuit::VARIABLES;

// The gate that an operand is, or how many gates there are: `order::order_of` takes a list of numbers, where one that is no gate's means none.
#[tactic(auto, unfolding(crate::specs::Inner::Definers::definer_in, circuit::specs::Literal::variable, circuit::specs::Literal::constant))]
fn definer_of(definers: &[Option<u16>; Circuit::VALUES], l: u16, gates: u16) -> u16
    requires { l < 2 * base.variable + 2 }
    ensures { result ≡ definer_in definers.now gates l }
{
    if l < 2 {
        return gates;
    }
    definers[usize::from(l / 2)].unwrap_or(gates)
}

impl Rest<'_> {
    // For each variable the first gate that defines it.
    fn definers(&self, body: &Body) -> [Option<u16>; Circuit::VALUES]
        ensures { Definers body.now.rows (self.now.header.inputs + self.now.header.latches + 1) self.now.header.gates result }
    {
        let mut definers: [Option<u16>; Circuit::VALUES] = filled(None);
        for (j, [own, ..]) in self.gate_rows(body).iter().enumerate() {
            let v = usize::from(own / 2);
            if definers[v].is_none() {
                definers[v] = Some(j as u16);
            }
        }
        definers
    }

    // Both operands of each gate in turn.
    fn uses(&self, body: &Body) -> [u16; USES]
        ensures { take (2 * self.now.header.gates) result ≡ uses_of (row_gates (said self.now.header) body.now.rows) }
    {
        let definers = self.definers(body);
        let mut uses: [u16; USES] = filled(0);
        let gates = self.gates() as u16;
        for (i, [_, left, right]) in self.gate_rows(body).iter().enumerate() {
            uses[2 * i] = definer_of(&definers, *left, gates);
            uses[2 * i + 1] = definer_of(&definers, *right, gates);
        }
        uses
    }

    // The gates in order of evaluation, if none reaches itself.
    pub(crate) fn order(&self, body: &Body) -> Result<[u16; Circuit::VARIABLES], Refusal>
        ensures { OrderedAs (said self.now.header) body.now.rows result }
    {
        let uses = self.uses(body);
        let mut marks: [u8; Circuit::VARIABLES] = filled(0);
        let mut order: [u16; Circuit::VARIABLES] = filled(0);
        let first = self.first_gate();
        order_of(&uses[..2 * self.gates()], &mut marks, &mut order).map_err(|gate| Refusal {
            fault: Fault::GateCircle,
            place: 2 + first + gate,
        })?;
        Ok(order)
    }
}
