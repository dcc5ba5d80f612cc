// Sets of applet numbers as the bits of a byte: number n is bit n - 1.
// What each answer means stands in specs/Sets.antt.
#![tactic(auto)]

ghost use Rattle.std.specs.Prelude.{◌≡◌};
ghost use Rattle.sets.specs.Sets.{is_number, has?, single, set_both, meets, set_without, switched_set};

// Whether a number is one of 1 to 8.
#[tactic(auto, unfolding(crate::specs::Sets::is_number))]
pub fn is_number(n: u8) -> bool
    ensures { result ≡ is_number n }
{
    matches!(n, 1..=8)
}

// The set of one number; none for a number outside 1 to 8.
pub fn bit(n: u8) -> u8
    ensures { result ≡ single n }
{
    if is_number(n) { 1 << (n - 1) } else { 0 }
}

// Whether a number is in the set.
pub fn has(set: u8, n: u8) -> bool
    ensures { result ≡ has? set n }
{
    is_number(n) && (set >> (n - 1)) & 1 == 1
}

// Those of the first that are in the second.
pub fn both(a: u8, b: u8) -> u8
    ensures { result ≡ set_both a b }
{
    a & b
}

// Whether the sets have a number in common.
pub fn meet(a: u8, b: u8) -> bool
    ensures { result ≡ meets a b }
{
    both(a, b) != 0
}

// Those of the first that are not in the second.
pub fn without(a: u8, b: u8) -> u8
    ensures { result ≡ set_without a b }
{
    a & !b
}

// The set with the number, or without it.
pub fn switched(set: u8, n: u8, on: bool) -> u8
    ensures { result ≡ switched_set set n on }
{
    let own = bit(n);
    if on { set | own } else { set & !own }
}
