// What the literals of a line call for (01, "The file", rules 3 and 4; "The numbers", 5 and 6), and whether a literal is defined (7).
ghost use Rattle.std.specs.Prelude.{◌≡◌};
ghost use Rattle.circuit.specs.Literal.{too_large};
ghost use Rattle.fields.specs.Inner.Marks.{marked, unmarked, number_if};
ghost use Rattle.text.specs.Rules.{first_of, bad_own};

use below::get_or;
use circuit::Fault;

#[tactic(auto, unfolding(circuit::specs::Literal::too_large))]
pub fn too_large(m: u32, l: u32) -> bool
    ensures { result ≡ too_large m l }
{
    2 * u64::from(m) + 1 < u64::from(l)
}

// A literal that may not define.
#[tactic(auto, unfolding(text::specs::Rules::bad_own, circuit::specs::Literal::may_define))]
pub fn bad_own(m: u32, l: u32) -> bool
    ensures { result ≡ bad_own m l }
{
    let may_define = l % 2 == 0 && 2 <= l;
    too_large(m, l) || !may_define
}

// Whether a literal's variable is marked as defined.
#[tactic(auto, unfolding(crate::specs::Inner::Marks::marked, circuit::specs::Literal::variable))]
pub fn is_marked(defined: &[u8], l: u32) -> bool
    ensures { result ≡ marked defined.now l }
{
    get_or(defined, (l / 2) as usize, 0) == 1
}

// A literal that is neither a constant nor marked.
#[tactic(auto, unfolding(crate::specs::Inner::Marks::unmarked, circuit::specs::Literal::constant))]
pub fn is_unknown(defined: &[u8], l: u32) -> bool
    ensures { result ≡ unmarked defined.now l }
{
    2 <= l && !is_marked(defined, l)
}

// The first of 5 and 6 that applies.
#[tactic(auto, unfolding(text::specs::Rules::first_of))]
pub fn first_of(five: bool, six: bool) -> Option<Fault>
    ensures { number_if result ≡ first_of five six }
{
    if five {
        Some(Fault::BadLiteral)
    } else if six {
        Some(Fault::DefinedTwice)
    } else {
        None
    }
}
