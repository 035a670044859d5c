// The step rules of a certificate (01, "The certificate", what passes), over words that are evaluated already: whether a lane keeps the play in
// the stored region, and whether some lane keeps it out of the states of stored rank 1 to a bound. Shared with no solver.
#![tactic(auto)]

ghost use Rattle.std.specs.Prelude.{ℕ, ◌+◌, ◌-◌, min, ◌≡◌};
ghost use Rattle.below.specs.Least.{any};
ghost use Rattle.blocks.specs.Lane.{width, lits_in};
ghost use Rattle.game.specs.NetGame.{keeps_by};
ghost use Rattle.game.specs.Rank.{not_ranked};
ghost use Rattle.records.specs.AttackTable.{stored_rank};
ghost use Rattle.records.specs.RegionBits.{holds_state};

use records::stored::{holds_state, stored_rank};

// Whether the move in a lane gives error 0 and a next state in the stored region.
#[tactic(auto, unfolding(game::specs::NetGame::keeps_by))]
pub fn lane_keeps_region(
    net: &[u16],
    words: &[u64],
    j: usize,
    region: &[u8],
    latches: usize,
) -> bool
    ensures { result ≡ keeps_by (holds_state region.now latches) net.now (lits_in words.now j) }
{
    let error = blocks::error_in(net, words, j);
    !error && holds_state(region, latches, usize::from(blocks::next_in(net, words, j)))
}

// Whether some lane of a block, from one to an end, gives error 0 and a next state that isn't of stored rank 1 to a bound.
#[tactic(auto, unfolding(game::specs::NetGame::keeps_by))]
pub fn some_keeps(
    net: &[u16],
    words: &[u64],
    table: &[u8],
    latches: usize,
    bound: u16,
    from: usize,
    end: usize,
) -> bool
    ensures { result ≡ any (λ i. keeps_by (not_ranked (stored_rank table.now latches) bound) net.now (lits_in words.now (from + i))) (min end width - from) }
{
    (from..end.min(64)).any(|j| {
        !blocks::error_in(net, words, j)
            && is_unranked(
                table,
                latches,
                bound,
                usize::from(blocks::next_in(net, words, j)),
            )
    })
}

// Whether a state isn't of stored rank 1 to a bound. The solver asks this of its own table by a function of its own, since the rules share
// nothing with it.
#[tactic(auto, unfolding(game::specs::Rank::not_ranked))]
fn is_unranked(table: &[u8], latches: usize, bound: u16, state: usize) -> bool
    ensures { result ≡ not_ranked (stored_rank table.now latches) bound state }
{
    let rank = stored_rank(table, latches, state);
    rank == 0 || bound < rank
}
