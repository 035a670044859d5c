// One line behind the gates (01, "The file", rules 5 and 6): a symbol, the comment's line, or neither.
ghost use Rattle.std.specs.Prelude.{◌^◌, ◌<◌, ◌≡◌, ◌&&◌, eqb, drop};
ghost use Rattle.bits.specs.Bytes.{starts_with};
ghost use Rattle.lines.specs.Inner.Headed.{said};
ghost use Rattle.lines.specs.Inner.Named.{slot_of};
ghost use Rattle.lines.specs.Inner.SymboledAs.{SymbolAt, SymbolAs};
ghost use Rattle.text.specs.Symbol.{positions, input_letter, prefix};

use crate::header::Header;
use below::get_or;
use circuit::Fault;
use fields::name::{is_comment, is_named, starts_with};
use fields::number::{Numeral, number_at};

// A symbol: where its mark stands, its position, and whether it makes an input controllable.
#[derive(Clone, Copy, Debug, PartialEq, Eq)]
pub struct Symbol {
    pub slot: usize,
    pub position: usize,
    pub controls: bool,
}

// A whole line, where a header's counts say which positions can be named and the marked ones were named above: its symbol, or none at the
// comment's line.
pub fn symbol_line(line: &[u8], h: Header, named: &[u8]) -> Result<Option<Symbol>, Fault>
    ensures { SymbolAs (said h) named.now line.now result }
{
    if is_comment(line) {
        return Ok(None);
    }
    if line.is_empty() {
        return Err(Fault::BadSymbol);
    }
    let number = number_at(line, 1).ok_or(Fault::BadSymbol)?;
    symbol_at(line, line[0], number, h, named)
        .map(Some)
        .ok_or(Fault::BadSymbol)
}

// What stands behind a letter and its position.
fn symbol_at(line: &[u8], letter: u8, number: Numeral, h: Header, named: &[u8]) -> Option<Symbol>
    requires { number.behind < 2 ^ 63 }
    ensures { SymbolAt (said h) named.now letter number.value (drop number.behind line.now) result }
{
    let position = number.value as usize;
    let slot = slot_of(letter, number.value, h);
    if !is_named(line, number.behind) {
        return None;
    }
    if positions_of(letter, h) <= position {
        return None;
    }
    if get_or(named, slot, 0) == 1 {
        return None;
    }
    Some(Symbol {
        slot,
        position,
        controls: is_controllable(letter, line, number.behind + 1),
    })
}

// How many positions a letter has.
#[tactic(auto, unfolding(text::specs::Symbol::positions))]
fn positions_of(letter: u8, h: Header) -> usize
    ensures { result ≡ positions (said h) letter }
{
    let n = match letter {
        b'i' => h.inputs,
        b'l' => h.latches,
        b'o' => h.outputs,
        _ => 0,
    };
    n as usize
}

// Where the marks have a letter's position.
#[tactic(auto, unfolding(crate::specs::Inner::Named::slot_of))]
fn slot_of(letter: u8, position: u32, h: Header) -> usize
    ensures { result ≡ slot_of (said h) letter position }
{
    let p = position as usize;
    match letter {
        b'i' => p,
        b'l' => h.inputs as usize + p,
        _ => h.inputs as usize + h.latches as usize + p,
    }
}

// Whether a letter and the name at a place make an input controllable.
fn is_controllable(letter: u8, line: &[u8], at: usize) -> bool
    ensures { result ≡ (eqb letter input_letter && starts_with prefix (drop at line.now)) }
{
    letter == b'i' && starts_with(b"controllable_", line, at)
}
