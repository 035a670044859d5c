// One line before the symbols (01, "The file", rule 2): its numbers, or the first of 4, 5 and 6 that applies to it.
ghost use Rattle.std.specs.Prelude.{◌≡◌};
ghost use Rattle.fields.specs.Inner.Marks.{number_if};
ghost use Rattle.lines.specs.Inner.Kinds.{rule_of, fault_of};
ghost use Rattle.lines.specs.Inner.LinedAs.{LinedAs};

use crate::kind::{Form, Kind, form_of};
use circuit::Fault;
use fields::judge::{bad_own, first_of, is_marked, too_large};
use fields::row::row_at;

// A whole line of a kind, where the marked variables were defined above: its literals, 0 where there is none. That what a line uses is
// defined is looked at behind all gate lines.
pub fn line(kind: Kind, bytes: &[u8], m: u32, defined: &[u8]) -> Result<[u32; 3], Fault>
    ensures { LinedAs m (rule_of kind m) defined.now bytes.now result }
{
    let form = form_of(kind);
    let row = row_at(bytes, 0).ok_or(Fault::BadLine)?;
    if row.count < form.fewest || form.most < row.count {
        return Err(Fault::BadLine);
    }
    let [own, a, b, ..] = row.numbers;
    fault_of(form, m, own, a, b, defined).map_or(Ok([own, a, b]), Err)
}

// The first of 5 and 6 that a line's literals call for.
#[tactic(auto, unfolding(crate::specs::Inner::Kinds::fault_of))]
fn fault_of(form: Form, m: u32, own: u32, a: u32, b: u32, defined: &[u8]) -> Option<Fault>
    ensures { number_if result ≡ fault_of form m defined.now own a b }
{
    let large = too_large(m, own) || too_large(m, a) || too_large(m, b);
    let bad = form.defines && bad_own(m, own);
    let twice = form.defines && is_marked(defined, own);
    first_of(bad || large, twice)
}
