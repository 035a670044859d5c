// A view of a passed certificate (01, "The certificate"): the lent certificate bytes with the starts of its region and replies, as a pass
// of the check answers them. L, U and C can't be had from these; its readers take them as numbers, which the pass answers too.
#![tactic(auto)]

ghost use Rattle.std.specs.Prelude.{min, ◌≡◌, drop};
ghost use Rattle.records.specs.RegionBits.{holds_state};
ghost use Rattle.records.specs.PackedReplies.{packed_reply};
ghost use Rattle.records.specs.Passed.{reply_in};
ghost use Rattle.records.specs.ReplyBytes.{byte_reply};
ghost use Rattle.view.specs.View.{view_of};

use circuit::counts::Counts;
use records::passed::{Starts, packed_reply, region_bit, reply};

#[derive(Clone, Copy)]
pub struct View<'a> {
    pub certificate: &'a [u8],
    pub region: usize,
    pub replies: usize,
}

impl<'a> View<'a> {
    pub fn new(certificate: &'a [u8], region: usize, replies: usize) -> View<'a>
        ensures { result ≡ view_of certificate.entry region replies }
    {
        View {
            certificate,
            region,
            replies,
        }
    }

    // Whether the stored region holds a state.
    pub fn region_bit(self, latches: usize, state: usize) -> bool
        ensures { result ≡ holds_state (drop self.entry.region self.entry.certificate.now) latches state }
    {
        region_bit(self.certificate, self.region, latches, state)
    }

    // The reply to a reading at a state, by a byte table: the stored one inside the stored region, 0 outside.
    pub fn reply(self, latches: usize, readings: usize, state: usize, reading: usize) -> u8
        ensures { result ≡ reply_in (drop self.entry.region self.entry.certificate.now) latches
            (byte_reply (drop self.entry.replies self.entry.certificate.now) latches readings) state reading }
    {
        let starts = Starts {
            region: self.region,
            replies: self.replies, // where a byte table starts
        };
        reply(self.certificate, starts, latches, readings, state, reading)
    }

    // The reply to a reading at a state, by a packed table: the stored one inside the stored region, 0 outside.
    pub fn packed_reply(
        self,
        latches: usize,
        readings: usize,
        controls: usize,
        state: usize,
        reading: usize,
    ) -> u8
        ensures { result ≡ reply_in (drop self.entry.region self.entry.certificate.now) latches
            (packed_reply (drop self.entry.replies self.entry.certificate.now) (min latches 10) (min readings 5) (min controls 8))
            state reading }
    {
        let starts = Starts {
            region: self.region,
            replies: self.replies,
        };
        let counts = Counts {
            latches,
            readings,
            controls,
        };
        packed_reply(self.certificate, starts, counts, state, reading)
    }
}
