// Numbers of so many bits each (02, T-07), put one behind the other at a place of a lent buffer. A place among them is a number and a bit of
// it, so that none wraps.
ghost use Rattle.std.specs.Prelude.{◌≡◌, ◌≤◌, min, get_or, length};
ghost use Rattle.bits.specs.Packed.{packed_bytes};
ghost use Rattle.bits.specs.Wrote.{put_at};

use below::get_or;

// Packs the first n numbers and answers how many bytes they take. A number that isn't there counts as 0, a width above 8 as 8. Where the bytes
// don't fit, nothing is written.
#[tactic(auto, using(crate::proofs::Laws::Part::puts))]
pub fn pack(numbers: &[u8], width: usize, n: usize, out: &mut [u8], at: usize) -> usize
    ensures value { result ≡ length (packed_bytes (λ k. get_or numbers.now k 0) (min width 8) n) }
    ensures out_after { out.new ≡ put_at out.old at (packed_bytes (λ k. get_or numbers.now k 0) (min width 8) n) }
{
    let packing = Packing {
        numbers,
        width: width.min(8),
        n,
    };
    let many = packing.bytes();
    if many <= out.len() && at <= out.len() - many {
        packing.put(out, at);
    }
    many
}

// The first n numbers, of so many bits each.
#[derive(Drop)]
struct Packing<'a> {
    numbers: &'a [u8],
    width: usize,
    n: usize,
    ghost within: { width ≤ 8 },
}

impl Packing<'_> {
    ghost use Rattle.std.specs.Prelude.{◌&&◌, ◌*◌, ◌+◌, ◌<◌, ◌≡◌, ◌≤◌, length, ltb};
    ghost use Rattle.bits.specs.Bit.{one_if};
    ghost use Rattle.bits.specs.BitBytes.{bit_byte};
    ghost use Rattle.bits.specs.Packed.{packed_bit};
    ghost use Rattle.bits.specs.Wrote.{put_at};
    ghost use Rattle.put.specs.Inner.Packing.{bytes_of, number_of};

    // How many bytes they take.
    #[tactic(auto, using(bits::proofs::Laws::PackedBits::bytes_of_numbers, bits::proofs::Laws::Packed::packed_length_lem))]
    fn bytes(&self) -> usize
        ensures { result ≡ length (bytes_of self.now) }
    {
        self.n / 8 * self.width + (self.n % 8 * self.width).div_ceil(8)
    }

    // Byte after byte, where there is room for them.
    fn put(&self, out: &mut [u8], at: usize)
        requires { at + length (bytes_of self.now) ≤ length out.old }
        ensures { out.new ≡ put_at out.old at (bytes_of self.now) }
    {
        for j in 0..self.bytes() {
            out[at + j] = self.byte(j);
        }
    }

    // Eight bits, the first of them lowest.
    fn byte(&self, j: usize) -> u8
        requires { 0 < self.now.width }
        ensures { result ≡ bit_byte (packed_bit (number_of self.now) self.now.width) (self.now.n * self.now.width) j }
    {
        let mut byte = 0;
        for b in 0..8 {
            byte += self.bit(j, b) << b;
        }
        byte
    }

    // Bit b of byte j: a bit of a number, 0 behind the last. An index above every length is never computed.
    #[tactic(auto, using(crate::proofs::Laws::PackedBit::bit_cases))]
    fn bit(&self, j: usize, b: usize) -> u8
        requires width_nonzero { 0 < self.now.width }
        requires b_bound { b < 8 }
        ensures { result ≡ one_if (ltb (8 * j + b) (self.now.n * self.now.width) && packed_bit (number_of self.now) self.now.width (8 * j + b)) }
    {
        if self.numbers.len() / 8 < j / self.width {
            return 0;
        }
        let place = 8 * (j % self.width) + b;
        let k = 8 * (j / self.width) + place / self.width;
        if self.n <= k {
            return 0;
        }
        (get_or(self.numbers, k, 0) >> (place % self.width)) & 1
    }
}
