// The planes of blocks (01, "The game"): what a block's moves lead to, kept in a slot until another block takes it.
ghost use Rattle.std.specs.Prelude.{◌+◌, ◌<◌, ◌≡◌, length, Some};
ghost use Rattle.blocks.specs.Evaluated.{literals};
ghost use Rattle.net.specs.InOrder.{InOrder};
ghost use Rattle.solver.specs.Inner.Planes.{planes_of, AllHeld, Holds};

use below::get_or;
use blocks::{LITERALS, evaluate};
use circuit::Circuit;
use circuit::counts::numbers;
use net::counts;

// A word for each latch that a circuit may have, and one for the error; one more than the block's number, or 0 where none is held. No `Option`:
// it would take eight bytes more, and the largest room has 32,768 slots.
#[derive(Clone, Copy, Debug, PartialEq, Eq)]
pub(crate) struct Slot {
    pub(crate) next: [u64; Circuit::LATCHES],
    pub(crate) error: u64,
    pub(crate) mark: u64,
}

// The number of the slot that holds a block. The block is evaluated if the slot doesn't hold it.
pub(crate) fn hold(
    net: &[u16],
    words: &mut [u64; LITERALS],
    slots: &mut [Slot],
    block: usize,
) -> usize
    requires in_order { InOrder net.now }
    requires some { 0 < length slots.old }
    requires all_held { AllHeld net.now slots.old }
    requires block_bound { block < 131072 }
    ensures holds { Holds slots.new result block }
    ensures still_held { AllHeld net.now slots.new }
    ensures long { length slots.new ≡ length slots.old }
{
    let i = slot_of(net, block, slots.len());
    let mark = block as u64 + 1;
    if slots[i].mark != mark {
        evaluate(net, block, words);
        slots[i] = planes(net, words, mark);
    }
    i
}

// The slot of a block among n: blocks of one place share one, where a place has several.
fn slot_of(net: &[u16], block: usize, n: usize) -> usize
    requires { 0 < n }
    ensures { result < n }
{
    place_of(net, block) % n
}

// The place of a block, where a place has several; else the block itself.
fn place_of(net: &[u16], block: usize) -> usize {
    let c = counts::controls(net);
    if c < 6 { block } else { block / numbers(c - 6) }
}

// The planes of a block that was evaluated.
fn planes(net: &[u16], words: &[u64], mark: u64) -> Slot
    requires { length words.now ≡ literals }
    ensures { result ≡ planes_of net.now words.now mark }
{
    let mut next = [0; Circuit::LATCHES];
    for k in 0..Circuit::LATCHES {
        next[k] = words[usize::from(get_or(net, 4 + k, 0)) % LITERALS];
    }
    let error = words[usize::from(get_or(net, 3, 0)) % LITERALS];
    Slot { next, error, mark }
}
