// What the tables of a certificate store (01, "The certificate", kinds 2, 3 and 4; 02, T-07, kind 5). Bits of a state or reading above its
// count aren't read; bytes that aren't there count as 0.
ghost use Rattle.std.specs.Prelude.{◌≡◌, ◌+◌, ◌*◌, ◌%◌, ◌^◌, ◌<◌, min, get_or};
ghost use Rattle.records.specs.RegionBits.{holds_state};
ghost use Rattle.records.specs.PackedReplies.{packed_reply};
ghost use Rattle.records.specs.ReplyBytes.{byte_reply};
ghost use Rattle.records.specs.ReplyTable.{stored_reply};
ghost use Rattle.records.specs.AttackTable.{stored_rank, stored_attack};

use crate::ReplyKind;
use below::get_or;
use bits::bytes::{byte_bit, low_bits};
use bits::packed::packed_number;
use circuit::Circuit;
use circuit::counts::Counts;

// Whether the region holds a state: a bit of its bytes.
#[tactic(auto, unfolding(crate::specs::RegionBits::holds_state))]
pub fn holds_state(bytes: &[u8], latches: usize, state: usize) -> bool
    ensures { result ≡ holds_state bytes.now latches state }
{
    byte_bit(bytes, low_bits(state, latches))
}

// The reply to a reading at a state, in a byte table. An index above every length is never computed.
#[tactic(auto, unfolding(crate::specs::ReplyBytes::byte_reply))]
pub fn byte_reply(bytes: &[u8], latches: usize, readings: usize, state: usize, reading: usize) -> u8
    ensures { result ≡ byte_reply bytes.now latches readings state reading }
{
    let s = low_bits(state, latches);
    let r = low_bits(reading, readings);
    if s == 0 {
        return get_or(bytes, r, 0);
    }
    if 63 <= readings {
        return 0;
    }
    let width = 1usize << readings;
    if bytes.len() / width < s {
        return 0;
    }
    get_or(bytes, s * width + r, 0)
}

// The reply to a reading at a state, in a packed table. Counts above a circuit's limits count as those.
#[tactic(auto, unfolding(crate::specs::PackedReplies::packed_reply))]
pub fn packed_reply(bytes: &[u8], counts: Counts, state: usize, reading: usize) -> u8
    ensures { result ≡ packed_reply bytes.now (min counts.latches 10) (min counts.readings 5) (min counts.controls 8) state reading }
{
    let s = low_bits(state, counts.latches.min(Circuit::LATCHES));
    let readings = counts.readings.min(Circuit::UNCONTROLLABLE);
    let r = low_bits(reading, readings);
    packed_number(bytes, counts.controls, (s << readings) + r)
}

// The reply to a reading at a state, in a table of a kind. Counts above a circuit's limits count as those.
// The kind stays a number, since the promise holds of every number: one that isn't that of a packed table is read as a byte table.
#[tactic(auto, unfolding(crate::specs::ReplyTable::stored_reply))]
pub fn stored_reply(kind: u16, bytes: &[u8], counts: Counts, state: usize, reading: usize) -> u8
    ensures { result ≡ stored_reply kind bytes.now (min counts.latches 10) (min counts.readings 5) (min counts.controls 8) state reading }
{
    if kind == ReplyKind::Packed.number() {
        return packed_reply(bytes, counts, state, reading);
    }
    let latches = counts.latches.min(Circuit::LATCHES);
    let readings = counts.readings.min(Circuit::UNCONTROLLABLE);
    byte_reply(bytes, latches, readings, state, reading)
}

// The stored rank of a state.
#[tactic(auto, unfolding(crate::specs::AttackTable::stored_rank, bits::specs::Digits::sum))]
pub fn stored_rank(bytes: &[u8], latches: usize, state: usize) -> u16
    ensures { result ≡ stored_rank bytes.now latches state }
{
    u16::from_le_bytes([
        in_row(bytes, latches, state, 0),
        in_row(bytes, latches, state, 1),
    ])
}

// The stored attack of a state.
#[tactic(auto, unfolding(crate::specs::AttackTable::stored_attack))]
pub fn stored_attack(bytes: &[u8], latches: usize, state: usize) -> u8
    ensures { result ≡ stored_attack bytes.now latches state }
{
    in_row(bytes, latches, state, 2)
}

// One of the three bytes of a state in an attack table.
fn in_row(bytes: &[u8], latches: usize, state: usize, part: usize) -> u8
    requires { part < 3 }
    ensures { result ≡ get_or bytes.now (3 * (state % 2 ^ latches) + part) 0 }
{
    let s = low_bits(state, latches);
    if bytes.len() / 3 < s {
        return 0;
    }
    get_or(bytes, 3 * s + part, 0)
}
