// Sets of numbers as masks: bit i stands for unit i of 16, or for place i of 32.
#![tactic(auto)]

ghost use Rattle.std.specs.Prelude.{◌≡◌, ℕ, ◌<◌, ◌⊎◌, Decides};
ghost use Rattle.sets.specs.Sets.{Has, Is, Inside, Below, Bearable, Basic, Large};
ghost use Rattle.sets.specs.Covers.{CoveredWith};

// Is place p in the set?
pub fn has_place(set: u32, p: u32) -> bool
    ensures { Decides result (Has set p) }
{
    p < 32 && (set >> p) & 1 == 1
}

// Is some place in the set?
pub fn some_place(set: u32) -> bool
    ensures { Decides result ((p : ℕ) × Has set p) }
{
    set != 0
}

// Is unit x in the set?
pub fn has(s: u16, x: u32) -> bool
    ensures { Decides result (Has s x) }
{
    has_place(u32::from(s), x)
}

// Is each unit of a in b?
pub fn inside(a: u16, b: u16) -> bool
    ensures { Decides result (Inside (Has a) (Has b)) }
{
    a & b == a
}

// Do the two sets have the same units?
pub fn same(a: u16, b: u16) -> bool
    ensures { Decides result (Is a (Has b)) }
{
    a == b
}

// Is some unit in the set?
pub fn some_unit(s: u16) -> bool
    ensures { Decides result ((x : ℕ) × Has s x) }
{
    some_place(u32::from(s))
}

// Is each unit of the set below n?
pub fn below(n: u32, s: u16) -> bool
    ensures { Decides result (Below n s) }
{
    n >= 16 || s >> n == 0
}

// The units of both.
pub fn shared(s: u16, t: u16) -> u16
    ensures { Is result (λ x. Has s x × Has t x) }
{
    s & t
}

// The units of either.
pub fn joined(s: u16, t: u16) -> u16
    ensures { Is result (λ x. Has s x ⊎ Has t x) }
{
    s | t
}

// The units of a that are not in b.
pub fn without(a: u16, b: u16) -> u16
    ensures { Is result (λ x. Has a x × (Has b x → ⊥)) }
{
    a & !b
}

// The set with unit x; a number that no mask can hold adds nothing.
pub fn with(s: u16, x: u32) -> u16
    ensures { Is result (λ y. Has s y ⊎ ((y ≡ x) × (x < 16))) }
{
    if x < 16 { s | 1 << x } else { s }
}

// Does the set lie inside one listed fault set?
pub fn bearable(faults: &[u16], s: u16) -> bool
    ensures { Decides result (Bearable faults.now (Has s)) }
{
    faults.iter().any(|f| inside(s, *f))
}

// Does it lie inside none?
pub fn basic(faults: &[u16], s: u16) -> bool
    ensures { Decides result (Basic faults.now (Has s)) }
{
    !bearable(faults, s)
}

// Does g with one listed fault set cover the set?
fn covered_with(faults: &[u16], g: u16, s: u16) -> bool
    ensures { Decides result (CoveredWith faults.now g (Has s)) }
{
    bearable(faults, without(s, g))
}

// Do no two listed fault sets cover the set?
pub fn large(faults: &[u16], s: u16) -> bool
    ensures { Decides result (Large faults.now (Has s)) }
{
    !faults.iter().any(|g| covered_with(faults, *g, s))
}
