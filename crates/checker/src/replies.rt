// The check of a reply certificate's tables (01, "The numbers", 13 to 15; 02, T-07), over a net.
ghost use Rattle.std.specs.Prelude.{◌≡◌};
ghost use Rattle.circuit.specs.Answer.{outcome_of};
ghost use Rattle.records.specs.Kinds.{reply_kind_number};
ghost use Rattle.checker.specs.Rules.{bad_replies, badly_sized};
ghost use Rattle.checker.specs.Inner.Faults.{reply_fault, first_reply_fault};
ghost use Rattle.checker.specs.Inner.TablesAs.{RepliesAs};

use crate::refused;
use crate::sized::{Evaluated, SizedNet};
use bits::packed::unused_bit;
use circuit::{Fault, Refusal};
use records::ReplyKind;
use records::stored::{holds_state, stored_reply};
use rules::lane_keeps_region;

#[derive(Clone, Copy)]
pub(crate) struct ReplyTables<'a> {
    pub(crate) net: SizedNet<'a>,
    pub(crate) region: &'a [u8],
    pub(crate) kind: ReplyKind,
    pub(crate) table: &'a [u8],
}

impl ReplyTables<'_> {
    // 13, 14 and 15.
    pub(crate) fn check(&self) -> Result<(), Refusal>
        ensures { RepliesAs self.now.net.numbers.now self.now.region.now (reply_kind_number self.now.kind) self.now.table.now (outcome_of result) }
    {
        if self.badly_sized() {
            return Err(refused(Fault::BadTable));
        }
        if !holds_state(self.region, self.net.counts.latches, 0) {
            return Err(refused(Fault::BadReset));
        }
        match self.broken_place() {
            Some(place) => Err(Refusal {
                fault: Fault::BrokenStep,
                place,
            }),
            None => Ok(()),
        }
    }

    // Whether region or reply table has a wrong length or an unused bit that is 1.
    #[tactic(auto, unfolding(records::specs::RegionBits::region_length, records::specs::RegionBits::unused_bit_set))]
    fn badly_sized(&self) -> bool
        ensures { result ≡ badly_sized self.now.region.now (reply_kind_number self.now.kind) self.now.table.now
            self.now.net.counts.latches self.now.net.counts.readings self.now.net.counts.controls }
    {
        let states = self.net.states();
        self.region.len() != states.div_ceil(8)
            || unused_bit(self.region, states)
            || self.bad_replies()
    }

    // Whether the reply table has a wrong length for its kind or an unused bit that is 1.
    fn bad_replies(&self) -> bool
        ensures { result ≡ bad_replies (reply_kind_number self.now.kind) self.now.table.now
            self.now.net.counts.latches self.now.net.counts.readings self.now.net.counts.controls }
    {
        let places = 1usize << (self.net.counts.latches + self.net.counts.readings);
        match self.kind {
            ReplyKind::Bytes => self.table.len() != places,
            ReplyKind::Packed => {
                let bits = self.net.counts.controls * places;
                self.table.len() != bits.div_ceil(8) || unused_bit(self.table, bits)
            }
        }
    }

    // The lowest s × 2^U + reading at which a reply breaks the step rule, if one does.
    fn broken_place(&self) -> Option<usize>
        ensures { result ≡ first_reply_fault self.now.net.numbers.now self.now.region.now (reply_kind_number self.now.kind) self.now.table.now }
    {
        let mut evaluated = Evaluated::new(self.net.numbers);
        let readings = self.net.readings();
        for state in 0..self.net.states() as u16 {
            for reading in 0..readings as u8 {
                if self.reply_broken(&mut evaluated, state, reading) {
                    return Some(usize::from(state) * readings + usize::from(reading));
                }
            }
        }
        None
    }

    // Whether the reply to a reading at a state breaks the step rule. A block stays evaluated until a reply needs another one: with few
    // controls it has the moves of several readings.
    #[tactic(auto, unfolding(game::specs::Reply::reply_broken, game::specs::NetGame::net_game))]
    fn reply_broken(&self, evaluated: &mut Evaluated<'_>, state: u16, reading: u8) -> bool
        requires { evaluated.old.net.now ≡ self.now.net.numbers.now }
        ensures broken { result ≡ reply_fault self.now.net.numbers.now self.now.region.now (reply_kind_number self.now.kind) self.now.table.now state reading }
        ensures same_net { evaluated.new.net.now ≡ self.now.net.numbers.now }
    {
        let latches = self.net.counts.latches;
        if !holds_state(self.region, latches, usize::from(state)) {
            return false;
        }
        let reply = stored_reply(
            self.kind.number(),
            self.table,
            self.net.counts,
            usize::from(state),
            usize::from(reading),
        );
        if usize::from(reply) >= self.net.controls() {
            return true;
        }
        let m = self.net.move_of(state, reading, reply);
        evaluated.turn_to(m / 64);
        !lane_keeps_region(
            self.net.numbers,
            &evaluated.words,
            m % 64,
            self.region,
            latches,
        )
    }
}
