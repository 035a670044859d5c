// Bytes put at a place of a lent buffer (01, "The numbers": a success writes its bytes, a refusal none).
#![tactic(auto)]

pub mod packed;

ghost use Rattle.std.specs.Prelude.{◌≡◌, length};
ghost use Rattle.bits.specs.Wrote.{put_at};
ghost use Rattle.put.specs.Gap.{close_gap};
ghost use Rattle.put.specs.Head.{head_of};

// Puts bytes at a place of the buffer, and answers how many there are. Where they don't fit there, nothing is written.
#[tactic(auto, using(crate::proofs::Laws::Part::puts))]
pub fn put_bytes(out: &mut [u8], at: usize, text: &[u8]) -> usize
    ensures value { result ≡ length text.now }
    ensures out_after { out.new ≡ put_at out.old at text.now }
{
    let n = text.len();
    // no `get_mut`: its contract doesn't say what the buffer holds then
    if n <= out.len() && at <= out.len() - n {
        out[at..at + n].copy_from_slice(text);
    }
    n
}

// Puts the head of a record (01, "The certificate") at a place of the buffer: the length of its contents in four bytes and its kind in
// two, both little-endian. Answers how many bytes that are. Where they don't fit there, nothing is written.
#[tactic(auto, unfolding(bits::specs::Digits::digits))]
pub fn put_head(out: &mut [u8], at: usize, kind: u16, length: usize) -> usize
    ensures value { result ≡ 6 }
    ensures out_after { out.new ≡ put_at out.old at (head_of kind length) }
{
    let [first, second, third, fourth, ..] = length.to_le_bytes();
    let [low, high] = kind.to_le_bytes();
    put_bytes(out, at, &[first, second, third, fourth, low, high])
}

// Takes n bytes out at a place and closes the gap: what lies behind it moves up, and the rest is 0 (02, T-08).
pub fn close_gap(bytes: &mut [u8], at: usize, n: usize)
    ensures { bytes.new ≡ close_gap bytes.old at n }
{
    let end = bytes.len();
    let at = at.min(end);
    let n = n.min(end - at);
    bytes.copy_within(at + n..end, at);
    bytes[end - n..].fill(0);
}
