// A page that is written at the front of a lent buffer (01, "The numbers"; "Listings to compare"): each text goes behind what is there. In a
// buffer that is too short it counts. Not by `write!`: its contract says nothing of what stands after an `Err`.
#![tactic(auto)]

ghost use Rattle.std.specs.Prelude.{length, ℕ, List};
ghost use Rattle.bits.specs.InTurn.{in_turn};
ghost use Rattle.circuit.specs.Answer.{WrittenAs, fitted};
ghost use Rattle.text.specs.Number.{decimal};
ghost use Rattle.text.specs.Written.{number_line};
ghost use Rattle.page.specs.Added.{Added};
ghost use Rattle.page.specs.Field.{field};

use circuit::{Fault, Refusal};
use decimal::put_decimal;
use put::put_bytes;

// The buffer, and where the next bytes go: that may lie behind its end.
#[derive(Drop)]
pub struct Page<'a> {
    out: &'a mut [u8],
    at: usize,
}

impl Page<'_> {
    // Bytes as they are.
    pub fn bytes(&mut self, text: &[u8])
        ensures { Added text.now self.old self.new }
    {
        let n = put_bytes(self.out, self.at, text);
        self.at = self.at.saturating_add(n);
    }

    // The digits of a number.
    pub fn number(&mut self, n: usize)
        ensures { Added (decimal n) self.old self.new }
    {
        let digits = put_decimal(self.out, self.at, n as u64);
        self.at = self.at.saturating_add(digits);
    }

    // A number behind a space.
    pub fn field(&mut self, n: usize)
        ensures { Added (field n) self.old self.new }
    {
        self.bytes(b" ");
        self.number(n);
    }

    // Numbers, single spaces between them, and byte 10.
    pub fn line(&mut self, numbers: &[usize])
        ensures { Added (number_line numbers.now) self.old self.new }
    {
        if let Some((first, rest)) = numbers.split_first() {
            self.number(*first);
            for n in rest {
                self.field(*n);
            }
        }
        self.bytes(b"\n");
    }

    // The first n of these texts, one behind the other.
    pub fn in_turn<T: Texts>(&mut self, texts: &T, n: usize)
        ensures { Added (in_turn (T.nth texts.now) n) self.old self.new }
    {
        for i in 0..n {
            texts.put_nth(self, i);
        }
    }
}

// What can be put on a page.
pub trait Text {
    ghost text: { Self → List ℕ };

    fn put(&self, page: &mut Page)
        ensures { Added (text self.now) page.old page.new };
}

// A text for each number. No closure: that it may be called would be asked of the caller, and no public function asks anything.
pub trait Texts {
    ghost nth: { Self → ℕ → List ℕ };

    fn put_nth(&self, page: &mut Page, i: usize)
        ensures { Added (nth self.now i) page.old page.new };
}

// Writes a text at the front of the buffer. It is counted first: where the buffer is shorter, nothing is written.
pub fn fit<T: Text>(out: &mut [u8], text: &T) -> Result<usize, Refusal>
    ensures { WrittenAs (fitted (T.text text.now) (length out.old)) out.old out.new result }
{
    let mut count = Page {
        out: &mut [],
        at: 0,
    };
    text.put(&mut count);
    if out.len() < count.at {
        return Err(Refusal {
            fault: Fault::NoRoom,
            place: 0,
        });
    }
    let mut page = Page { out, at: 0 };
    text.put(&mut page);
    Ok(page.at)
}
