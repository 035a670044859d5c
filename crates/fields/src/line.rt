// Lines (01, "The file"): where a line starts and where it ends.
ghost use Rattle.std.specs.Prelude.{◌≡◌, ◌+◌, length, drop};
ghost use Rattle.text.specs.Line.{first_line};

use below::behind;

// Where the line that starts at a place ends: behind its byte 10, or at the end of the file.
pub fn line_end(s: &[u8], at: usize) -> usize
    ensures { result ≡ at + length (first_line (drop at s.now)) }
{
    let rest = behind(s, at);
    match rest.iter().position(|b| *b == b'\n') {
        Some(i) => at + (i + 1),
        None => at + rest.len(),
    }
}
