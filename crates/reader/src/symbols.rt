// Symbol lines and the comment (01, "The file", rules 5 and 6), by the counts of a header.
ghost use Rattle.std.specs.Prelude.{◌≤◌, length};
ghost use Rattle.lines.specs.Inner.Headed.{said};
ghost use Rattle.reader.specs.Inner.SymbolsAs.{SymbolsAs};

use crate::rest::Rest;
use below::filled;
use circuit::{Circuit, Refusal};
use lines::symbol::symbol_line;

impl Rest<'_> {
    // Up to the comment or where the file ends: a flag for each input, 1 if it is controllable.
    pub(crate) fn flags(&self, at: usize) -> Result<[u8; Circuit::INPUTS], Refusal>
        requires { at ≤ length self.now.bytes.now }
        ensures { SymbolsAs (said self.now.header) self.now.bytes.now at result }
    {
        // Marks and flags are bytes of 0 and 1: `lines::symbol` and `Circuit.controllable`, which are public, take them so.
        let mut named: [u8; Circuit::NAMES] = filled(0);
        let mut flags: [u8; Circuit::INPUTS] = filled(0);
        let first = 2 + self.line_count();
        for (k, line) in self.bytes[at..]
            .split_inclusive(|b| *b == b'\n')
            .enumerate()
        {
            let read = symbol_line(line, self.header, &named).map_err(|fault| Refusal {
                fault,
                place: first + k,
            })?;
            let Some(symbol) = read else {
                return Ok(flags);
            };
            named[symbol.slot] = 1;
            if symbol.controls {
                flags[symbol.position] = 1;
            }
        }
        Ok(flags)
    }
}
