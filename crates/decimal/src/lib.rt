// Numbers in decimal (01, "The file" and "Listings to compare"), written at a place of a lent buffer.
#![tactic(auto)]

ghost use Rattle.std.specs.Prelude.{◌≡◌, length};
ghost use Rattle.bits.specs.Wrote.{put_at};
ghost use Rattle.text.specs.Number.{decimal};

use itoa::Buffer;
use put::put_bytes;

// How many digits n has.
#[tactic(auto, using(crate::proofs::Laws::Printed::printed_decimal))]
pub fn decimal_length(n: u64) -> usize
    ensures { result ≡ length (decimal n) }
{
    Buffer::new().format(n).len()
}

// Puts the digits of n at a place of the buffer, and answers how many there are. Where they don't fit there, nothing is written.
#[tactic(auto, using(crate::proofs::Laws::Printed::printed_decimal))]
pub fn put_decimal(out: &mut [u8], at: usize, n: u64) -> usize
    ensures value { result ≡ length (decimal n) }
    ensures out_after { out.new ≡ put_at out.old at (decimal n) }
{
    put_bytes(out, at, Buffer::new().format(n).as_bytes())
}
