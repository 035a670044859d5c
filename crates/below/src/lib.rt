// What is said of the numbers below a bound: the least one that passes a test, any, every, and a table of them.
// Definitions (specs/) and their laws (proofs/Laws/). And what code does with lists of any items.
#![tactic(auto)]

ghost use Rattle.std.specs.Prelude.{◌≡◌, drop, get_or, take};
ghost use Rattle.below.specs.Table.{table};

// The item at a place; one that isn't there counts as another.
pub fn get_or<T: Copy>(items: &[T], at: usize, other: T) -> T
    ensures { result ≡ get_or items.now at other }
{
    items.get(at).copied().unwrap_or(other)
}

// The first n items, or all if there are fewer.
pub fn front<T>(items: &[T], n: usize) -> &[T]
    ensures { result.now ≡ take n items.now }
{
    &items[..n.min(items.len())]
}

// The items from n on, or none if there are fewer.
pub fn behind<T>(items: &[T], n: usize) -> &[T]
    ensures { result.now ≡ drop n items.now }
{
    items.get(n..).unwrap_or(&[])
}

// As many of the same item as the array has room for.
pub fn filled<T: Copy, const N: usize>(item: T) -> [T; N]
    ensures { result ≡ table (λ i. item) N }
{
    [item; N]
}
