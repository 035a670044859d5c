// Reading a passed certificate (01, "The certificate"): the lent bytes, the starts of its tables and the counts L, U and C, as a pass of
// the check answers them. A start beyond the end counts as one with nothing behind it.
ghost use Rattle.std.specs.Prelude.{◌≡◌, min, drop};
ghost use Rattle.records.specs.RegionBits.{holds_state};
ghost use Rattle.records.specs.PackedReplies.{packed_reply};
ghost use Rattle.records.specs.Passed.{reply_in};
ghost use Rattle.records.specs.ReplyBytes.{byte_reply};
ghost use Rattle.records.specs.AttackTable.{stored_rank, stored_attack};

use crate::stored;
use crate::stored::{byte_reply, holds_state, stored_attack, stored_rank};
use below::behind;
use circuit::counts::Counts;

// Where region and replies start.
#[derive(Clone, Copy, Debug, PartialEq, Eq)]
pub struct Starts {
    pub region: usize,
    pub replies: usize,
}

// Whether the stored region holds a state.
pub fn region_bit(certificate: &[u8], region: usize, latches: usize, state: usize) -> bool
    ensures { result ≡ holds_state (drop region certificate.now) latches state }
{
    holds_state(behind(certificate, region), latches, state)
}

// The reply to a reading at a state, by a byte table: the stored one inside the stored region, 0 outside.
#[tactic(auto, unfolding(crate::specs::Passed::reply_in))]
pub fn reply(
    certificate: &[u8],
    starts: Starts,
    latches: usize,
    readings: usize,
    state: usize,
    reading: usize,
) -> u8
    ensures { result ≡ reply_in (drop starts.region certificate.now) latches
        (byte_reply (drop starts.replies certificate.now) latches readings) state reading }
{
    if !region_bit(certificate, starts.region, latches, state) {
        return 0;
    }
    let table = behind(certificate, starts.replies);
    byte_reply(table, latches, readings, state, reading)
}

// The reply to a reading at a state, by a packed table: the stored one inside the stored region, 0 outside.
#[tactic(auto, unfolding(crate::specs::Passed::reply_in))]
pub fn packed_reply(
    certificate: &[u8],
    starts: Starts,
    counts: Counts,
    state: usize,
    reading: usize,
) -> u8
    ensures { result ≡ reply_in (drop starts.region certificate.now) counts.latches
        (packed_reply (drop starts.replies certificate.now) (min counts.latches 10) (min counts.readings 5) (min counts.controls 8))
        state reading }
{
    if !region_bit(certificate, starts.region, counts.latches, state) {
        return 0;
    }
    stored::packed_reply(behind(certificate, starts.replies), counts, state, reading)
}

// The stored rank of a state.
pub fn rank(certificate: &[u8], table: usize, latches: usize, state: usize) -> u16
    ensures { result ≡ stored_rank (drop table certificate.now) latches state }
{
    stored_rank(behind(certificate, table), latches, state)
}

// The stored attack of a state.
pub fn attack(certificate: &[u8], table: usize, latches: usize, state: usize) -> u8
    ensures { result ≡ stored_attack (drop table certificate.now) latches state }
{
    stored_attack(behind(certificate, table), latches, state)
}
