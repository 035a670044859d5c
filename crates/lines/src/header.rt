// The header (01, "The file", rule 1): `aag M I L O A`.
ghost use Rattle.lines.specs.Inner.Headed.{HeadedAs};

use fields::row::row_at;

// M and how many inputs, latches, outputs and gates there are.
#[derive(Clone, Copy, Debug, PartialEq, Eq)]
pub struct Header {
    pub largest: u32,
    pub inputs: u32,
    pub latches: u32,
    pub outputs: u32,
    pub gates: u32,
}

pub fn header_line(line: &[u8]) -> Option<Header>
    ensures { HeadedAs line.now result }
{
    if !line.starts_with(b"aag ") {
        return None;
    }
    let row = row_at(line, 4)?;
    if row.count != 5 {
        return None;
    }
    let [largest, inputs, latches, outputs, gates] = row.numbers;
    Some(Header {
        largest,
        inputs,
        latches,
        outputs,
        gates,
    })
}
