// Names and fixed strings in a line (01, "The file", rules 1, 5 and 6).
ghost use Rattle.std.specs.Prelude.{◌≡◌, length, drop};
ghost use Rattle.bits.specs.Bytes.{starts_with};
ghost use Rattle.fields.specs.Inner.WellNamed.{well_named};
ghost use Rattle.text.specs.Number.{run};
ghost use Rattle.text.specs.Symbol.{is_name_byte, is_comment};

use below::behind;

// Whether a fixed string stands at a place.
#[tactic(auto, using(crate::proofs::Laws::Compared::starts_pointwise))]
pub fn starts_with(prefix: &[u8], s: &[u8], at: usize) -> bool
    ensures { result ≡ starts_with prefix.now (drop at s.now) }
{
    behind(s, at).starts_with(prefix)
}

// How many bytes of a name a text begins with.
fn name_size(text: &[u8]) -> usize
    ensures { result ≡ length (run is_name_byte text.now) }
{
    text.iter()
        .take_while(|b| matches!(**b, b' '..=b'~'))
        .count()
}

// Whether a space, a name and byte 10 stand at a place, and nothing else.
#[tactic(auto, using(crate::proofs::Laws::Compared::well_named_is))]
pub fn is_named(line: &[u8], at: usize) -> bool
    ensures { result ≡ well_named (drop at line.now) }
{
    let text = behind(line, at);
    let name = behind(text, 1);
    let n = name_size(name);
    let starts = text.starts_with(b" ");
    let ends = behind(name, n) == b"\n".as_slice();
    starts && ends && 1 <= n && n <= 200
}

// A line holding only `c`.
#[tactic(auto, using(bits::proofs::Laws::SameBytes::pointwise_same), unfolding(text::specs::Symbol::is_comment))]
pub fn is_comment(line: &[u8]) -> bool
    ensures { result ≡ is_comment line.now }
{
    line == b"c\n".as_slice()
}
