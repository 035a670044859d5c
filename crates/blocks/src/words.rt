// Words, one for each literal: where one stands, and how one is put for both literals of a variable.
ghost use Rattle.std.specs.Prelude.{ℕ, ◌%◌, ◌<◌, ◌≡◌};
ghost use Rattle.net.specs.InOrder.{variables};
ghost use Rattle.blocks.specs.Evaluated.{literals, put_both};
ghost use Rattle.blocks.specs.Lane.{width, lane, lits_in};

use crate::LITERALS;

// Where the word of a literal stands.
pub(crate) fn place(l: u16) -> usize
    ensures { result ≡ l % literals }
{
    usize::from(l) % LITERALS
}

// Puts a word for a variable, and its inverse.
pub(crate) fn put_both(words: &mut [u64; LITERALS], v: usize, w: u64)
    requires { v < variables }
    ensures { (j : ℕ) → j < width → lits_in words.new j ≡ put_both v (lane w j) (lits_in words.old j) }
{
    words[2 * v] = w;
    words[2 * v + 1] = !w;
}
