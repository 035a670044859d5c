// Which control keeps (01, "The game"): by what the words of a block say in a lane, by the state that a control leads to; over a list of ranks.
#![tactic(auto)]

pub mod lane;
pub mod rank_list;
