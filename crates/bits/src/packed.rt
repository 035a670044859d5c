// Numbers of so many bits each, one behind the other (02, T-07), and bits that stand for nothing. A place is a byte and a bit of it, so that
// none wraps.
ghost use Rattle.std.specs.Prelude.{min, ◌≡◌};
ghost use Rattle.bits.specs.BitBytes.{unused_bit};
ghost use Rattle.bits.specs.Packed.{packed_number};

use crate::bytes::bit_at;

// The number at a place among numbers of so many bits; a width above 8 counts as 8.
#[tactic(auto, using(crate::proofs::Laws::PackedBits::places, crate::proofs::Laws::Gathered::gathered_all), unfolding(crate::specs::Packed::packed_number))]
pub fn packed_number(bytes: &[u8], width: usize, k: usize) -> u8
    ensures { result ≡ packed_number bytes.now (min width 8) k }
{
    let w = width.min(8);
    let start = k / 8 * w;
    let first = k % 8 * w;
    let mut number = 0;
    for j in 0..w {
        let place = first + j;
        number += bit_at(bytes, start + place / 8, place % 8) << j;
    }
    number
}

// Whether some bit from bit n on is 1.
pub fn unused_bit(bytes: &[u8], n: usize) -> bool
    ensures { result ≡ unused_bit bytes.now n }
{
    let mut used = n % 8;
    for at in n / 8..bytes.len() {
        if bytes[at] >> used != 0 {
            return true;
        }
        used = 0;
    }
    false
}
