// Literals that must be defined somewhere in the file: next states, the output, the gates' operands (01, "The numbers", the late 7; 02, T-01).
ghost use Rattle.std.specs.Prelude.{◌+◌, ◌≤◌, ◌≡◌};
ghost use Rattle.lines.specs.Inner.Headed.{said};
ghost use Rattle.reader.specs.Inner.Rows.{late_at};
ghost use Rattle.reader.specs.Inner.DefinedAs.{DefinedAs, any_unmarked};

use crate::body::Body;
use crate::rest::Rest;
use circuit::{Fault, Refusal};
use fields::judge::is_unknown;
use lines::kind::{Kind, kind_of};

impl Rest<'_> {
    // Whether a line behind the inputs uses a literal that is neither a constant nor marked as defined.
    fn uses_unknown(&self, body: &Body, k: usize) -> bool
        requires { k ≤ self.now.header.latches + self.now.header.gates }
        ensures { result ≡ any_unmarked body.now.defined (late_at (said self.now.header) body.now.rows k) }
    {
        let j = self.inputs() + k;
        let [own, first, second] = body.rows[j];
        match kind_of(self.header, j) {
            Kind::Output => is_unknown(&body.defined, u32::from(own)),
            Kind::Gate => {
                let first = is_unknown(&body.defined, u32::from(first));
                let second = is_unknown(&body.defined, u32::from(second));
                first || second
            }
            Kind::Input | Kind::Latch => is_unknown(&body.defined, u32::from(first)),
        }
    }

    // That none of these lines does.
    pub(crate) fn defined(&self, body: &Body) -> Result<(), Refusal>
        ensures { DefinedAs (said self.now.header) body.now.defined body.now.rows result }
    {
        for k in 0..self.latches() + 1 + self.gates() {
            if self.uses_unknown(body, k) {
                return Err(Refusal {
                    fault: Fault::NotDefined,
                    place: 2 + self.inputs() + k,
                });
            }
        }
        Ok(())
    }
}
