// Numbers (01, "The file"): one to seven decimal digits, without a leading zero unless it is 0 itself.
ghost use Rattle.std.specs.Prelude.{◌^◌, ◌<◌, ◌≡◌, drop};
ghost use Rattle.fields.specs.Inner.NumberAt.{Digits, NumberAt};
ghost use Rattle.text.specs.Number.{decimal_value, is_digit, is_numeral, run};

use below::behind;

// A number with the place behind it.
#[derive(Clone, Copy, Debug, PartialEq, Eq)]
pub struct Numeral {
    pub value: u32,
    pub behind: usize,
}

// The digits that stand at a place.
fn digits_at(s: &[u8], at: usize) -> &[u8]
    ensures { result.now ≡ run is_digit (drop at s.now) }
{
    let rest = behind(s, at);
    let n = rest.iter().take_while(|b| b.is_ascii_digit()).count();
    &rest[..n]
}

// What so few digits say.
fn value_of(digits: &[u8]) -> u32
    requires { Digits digits.now }
    ensures value { result ≡ decimal_value 0 digits.now }
    ensures small { result < 10 ^ 7 }
{
    let mut value = 0;
    for digit in digits {
        value = value * 10 + u32::from(digit - b'0');
    }
    value
}

// Whether digits make a number.
#[tactic(auto, unfolding(text::specs::Number::is_numeral))]
fn is_numeral(digits: &[u8]) -> bool
    ensures { result ≡ is_numeral digits.now }
{
    let n = digits.len();
    1 <= n && n <= 7 && (digits[0] != b'0' || n == 1)
}

// The number that starts at a place.
pub fn number_at(s: &[u8], at: usize) -> Option<Numeral>
    ensures { NumberAt s.now at result }
{
    let digits = digits_at(s, at);
    if is_numeral(digits) {
        return Some(Numeral {
            value: value_of(digits),
            behind: at + digits.len(),
        });
    }
    None
}
