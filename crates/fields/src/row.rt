// The numbers of a line (01, "The file"): single spaces between them, byte 10 behind the last, and nothing else.
ghost use Rattle.fields.specs.Inner.RowAt.{FieldAt, RowAt};

use crate::number::{Numeral, number_at};
use below::get_or;

// A number of a line, and where the next one starts: the last has none.
#[derive(Clone, Copy)]
struct Field {
    value: u32,
    next: Option<usize>,
}

// The number that starts at a place, if a space follows it or it ends the line.
fn field_at(s: &[u8], at: usize) -> Option<Field>
    ensures { FieldAt s.now at result }
{
    let Numeral { value, behind } = number_at(s, at)?;
    match get_or(s, behind, 0) {
        b' ' => Some(Field {
            value,
            next: Some(behind + 1),
        }),
        b'\n' => (behind + 1 == s.len()).then_some(Field { value, next: None }),
        _ => None,
    }
}

// How many numbers a line has from a place on, one to five, and which; what isn't there is 0, so that a caller takes as many as it asked for.
#[derive(Clone, Copy, Debug, PartialEq, Eq)]
pub struct Row {
    pub count: usize,
    pub numbers: [u32; 5],
}

pub fn row_at(s: &[u8], at: usize) -> Option<Row>
    ensures { RowAt s.now at result }
{
    let mut numbers = [0; 5];
    let mut here = at;
    for k in 0..5 {
        let field = field_at(s, here)?;
        numbers[k] = field.value;
        match field.next {
            Some(next) => here = next,
            None => {
                return Some(Row {
                    count: k + 1,
                    numbers,
                });
            }
        }
    }
    None
}
