// The lines before the symbols (01, "The file", rule 2), one after the other, each by its kind.
ghost use Rattle.std.specs.Prelude.{ℕ, ◌^◌, ◌<◌, ◌≡◌, get_or};
ghost use Rattle.lines.specs.Inner.Headed.{said};
ghost use Rattle.reader.specs.Inner.BodyAs.{BodyAs};

use crate::body::Body;
use crate::rest::Rest;
use below::filled;
use circuit::{Circuit, Refusal};
use fields::line::line_end;
use lines::body::line;
use lines::kind::{form_of, kind_of};

// Literals of a circuit, as it stores them.
fn narrowed(literals: [u32; 3]) -> [u16; 3]
    requires { (i : ℕ) → get_or literals i 0 < 2 ^ 16 }
    ensures { result ≡ literals }
{
    let [own, a, b] = literals;
    [own as u16, a as u16, b as u16]
}

impl Rest<'_> {
    pub(crate) fn body(&self) -> Result<Body, Refusal>
        ensures { BodyAs (said self.now.header) self.now.bytes.now result }
    {
        let h = self.header;
        let mut rows: [[u16; 3]; Circuit::VALUES] = filled([0; 3]);
        // Marks are bytes of 0 and 1: `fields::judge`, which is public, takes them so.
        let mut defined: [u8; Circuit::VALUES] = filled(0);
        let mut at = 0;
        for j in 0..self.line_count() {
            let kind = kind_of(h, j);
            let end = line_end(self.bytes, at);
            let bytes = &self.bytes[at..end];
            let literals = line(kind, bytes, h.largest, &defined).map_err(|fault| Refusal {
                fault,
                place: 2 + j,
            })?;
            rows[j] = narrowed(literals);
            if form_of(kind).defines {
                defined[(literals[0] / 2) as usize] = 1;
            }
            at = end;
        }
        Ok(Body {
            rows,
            defined,
            behind: at,
        })
    }
}
