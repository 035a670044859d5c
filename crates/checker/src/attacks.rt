// The check of an attack certificate's table (01, "The numbers", 13 to 15), over a net.
ghost use Rattle.std.specs.Prelude.{◌≡◌};
ghost use Rattle.circuit.specs.Answer.{outcome_of};
ghost use Rattle.game.specs.Keeps.{answered};
ghost use Rattle.game.specs.NetGame.{net_game};
ghost use Rattle.game.specs.Rank.{not_ranked};
ghost use Rattle.net.specs.Net.{net_latches};
ghost use Rattle.records.specs.AttackTable.{stored_rank};
ghost use Rattle.checker.specs.Inner.Faults.{attack_fault, first_attack_fault};
ghost use Rattle.checker.specs.Inner.TablesAs.{AttacksAs};

use crate::refused;
use crate::sized::SizedNet;
use blocks::LITERALS;
use circuit::{Fault, Refusal};
use records::stored::{stored_attack, stored_rank};
use rules::some_keeps;

#[derive(Clone, Copy)]
pub(crate) struct AttackTable<'a> {
    pub(crate) net: SizedNet<'a>,
    pub(crate) table: &'a [u8],
}

impl AttackTable<'_> {
    // 13, 14 and 15.
    pub(crate) fn check(&self) -> Result<(), Refusal>
        ensures { AttacksAs self.now.net.numbers.now self.now.table.now (outcome_of result) }
    {
        if self.table.len() != 3 * self.net.states() {
            return Err(refused(Fault::BadTable));
        }
        if stored_rank(self.table, self.net.counts.latches, 0) == 0 {
            return Err(refused(Fault::BadReset));
        }
        match self.broken_place() {
            Some(place) => Err(Refusal {
                fault: Fault::BrokenStep,
                place: usize::from(place),
            }),
            None => Ok(()),
        }
    }

    // The lowest s whose attack breaks the step rule, if one does.
    fn broken_place(&self) -> Option<u16>
        ensures { result ≡ first_attack_fault self.now.net.numbers.now self.now.table.now }
    {
        (0..self.net.states() as u16).find(|&state| self.attack_broken(state))
    }

    // Whether the attack of a state breaks the step rule.
    #[tactic(auto, unfolding(game::specs::Attack::attack_broken, game::specs::NetGame::net_game, game::specs::Rank::defeats))]
    fn attack_broken(&self, state: u16) -> bool
        ensures { result ≡ attack_fault self.now.net.numbers.now self.now.table.now state }
    {
        let latches = self.net.counts.latches;
        let rank = stored_rank(self.table, latches, usize::from(state));
        if rank == 0 {
            return false;
        }
        let attack = stored_attack(self.table, latches, usize::from(state));
        usize::from(attack) >= self.net.readings() || self.is_answered(rank - 1, state, attack)
    }

    // Whether some control, at a state and reading, keeps out of the states of stored rank 1 to a bound. The moves of the controls stand in
    // turn: in one part of a block, or in whole blocks.
    fn is_answered(&self, bound: u16, state: u16, reading: u8) -> bool
        ensures { result ≡ answered (net_game self.now.net.numbers.now)
            (not_ranked (stored_rank self.now.table.now (net_latches self.now.net.numbers.now)) bound) state reading }
    {
        let net = self.net.numbers;
        let latches = self.net.counts.latches;
        let first = self.net.move_of(state, reading, 0);
        let end = first + self.net.controls();
        let mut words = [0; LITERALS];
        for block in first / 64..end.div_ceil(64) {
            blocks::evaluate(net, block, &mut words);
            let from = first.saturating_sub(64 * block);
            if some_keeps(
                net,
                &words,
                self.table,
                latches,
                bound,
                from,
                end - 64 * block,
            ) {
                return true;
            }
        }
        false
    }
}
