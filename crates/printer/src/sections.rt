// The sections of a print (01, "The file", rules 2 and 5): a line for each input, latch and gate, and the symbols.
ghost use Rattle.printer.specs.Inner.Line.{gate_line, input_line, latch_line, name_line};

use below::get_or;
use circuit::Lent;
use circuit::stored::{is_controllable, literal_at};
use page::{Page, Texts};

#[derive(Clone, Copy)]
pub(crate) struct Inputs<'a>(pub Lent<'a>);

impl Texts for Inputs<'_> {
    ghost nth = { λ s. input_line s.0 };

    fn put_nth(&self, page: &mut Page, i: usize) {
        page.line(&[usize::from(literal_at(self.0.input, i))]);
    }
}

#[derive(Clone, Copy)]
pub(crate) struct Latches<'a>(pub Lent<'a>);

impl Texts for Latches<'_> {
    ghost nth = { λ s. latch_line s.0 };

    fn put_nth(&self, page: &mut Page, i: usize) {
        page.line(&[
            usize::from(literal_at(self.0.latch, i)),
            usize::from(literal_at(self.0.next, i)),
        ]);
    }
}

// The gates in the order of the file's lines (02, T-01).
#[derive(Clone, Copy)]
pub(crate) struct Gates<'a>(pub Lent<'a>);

impl Texts for Gates<'_> {
    ghost nth = { λ s. gate_line s.0 };

    fn put_nth(&self, page: &mut Page, i: usize) {
        let gate = usize::from(get_or(self.0.lines, i, 0));
        if gate < self.0.gate.len() {
            page.line(&[
                usize::from(literal_at(self.0.gate, gate)),
                usize::from(literal_at(self.0.left, gate)),
                usize::from(literal_at(self.0.right, gate)),
            ]);
        } else {
            page.line(&[0, 0, 0]);
        }
    }
}

// The symbols of the controllable inputs: the position among all inputs stands in each twice.
#[derive(Clone, Copy)]
pub(crate) struct Names<'a>(pub Lent<'a>);

impl Texts for Names<'_> {
    ghost nth = { λ s. name_line s.0 };

    fn put_nth(&self, page: &mut Page, i: usize) {
        if is_controllable(self.0.controllable, i) {
            page.bytes(b"i");
            page.number(i);
            page.bytes(b" controllable_");
            page.line(&[i]);
        }
    }
}
