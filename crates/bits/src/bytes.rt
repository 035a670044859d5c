// Bytes compared, a bit of bytes read and put, the lowest bits of a number.
ghost use Rattle.std.specs.Prelude.{◌≡◌, ◌%◌, ◌^◌, ◌<◌, eqb, get_or};
ghost use Rattle.bits.specs.Bit.{bit, with_bit};
ghost use Rattle.bits.specs.ByteBit.{byte_bit, with_byte_bit};
ghost use Rattle.bits.specs.Bytes.{same_bytes};

use below::get_or;

// Whether a bit of bytes is 1: a shift and a mask on its byte.
#[tactic(auto, unfolding(crate::specs::ByteBit::byte_bit))]
pub fn byte_bit(bytes: &[u8], at: usize) -> bool
    ensures { result ≡ eqb (byte_bit bytes.now at) 1 }
{
    bit_at(bytes, at / 8, at % 8) == 1
}

// A bit of a byte.
#[tactic(auto, using(crate::proofs::Laws::Bit::by_mask))]
pub(crate) fn bit_at(bytes: &[u8], at: usize, k: usize) -> u8
    requires { k < 8 }
    ensures { result ≡ bit (get_or bytes.now at 0) k }
{
    (get_or(bytes, at, 0) >> k) & 1
}

// Puts a truth at a bit of bytes; a bit that isn't there stays.
#[tactic(auto, using(crate::proofs::Laws::ByteBit::past), unfolding(crate::specs::ByteBit::with_byte_bit))]
pub fn put_bit(bytes: &mut [u8], at: usize, b: bool)
    ensures { bytes.new ≡ with_byte_bit bytes.old at b }
{
    // no `get_mut`: its contract doesn't say what the slice holds then
    let i = at / 8;
    if i < bytes.len() {
        bytes[i] = with_bit(bytes[i], at % 8, b);
    }
}

// The byte with another truth at one of its bits.
#[tactic(auto, using(crate::proofs::Laws::Bit::one_put, crate::proofs::Laws::Bit::none_put))]
fn with_bit(byte: u8, k: usize, b: bool) -> u8
    requires { k < 8 }
    ensures { result ≡ with_bit byte k b }
{
    let weight = 1 << k;
    if b { byte | weight } else { byte & !weight }
}

// The lowest so many bits of a number; all of them where it has no more.
#[tactic(auto, using(crate::proofs::Laws::Shift::low))]
pub fn low_bits(n: usize, width: usize) -> usize
    ensures { result ≡ n % 2 ^ width }
{
    if width < 64 {
        n & ((1 << width) - 1)
    } else {
        n
    }
}

// Whether two lent slices hold the same bytes.
#[tactic(auto, using(crate::proofs::Laws::SameBytes::pointwise_same))]
pub fn same_bytes(a: &[u8], b: &[u8]) -> bool
    ensures { result ≡ same_bytes a.now b.now }
{
    a == b
}
