// Shared by all crates: numbers as a sign and a size, and what std has not for unsigned ones.
#![tactic(auto)]

ghost use Rattle.std.specs.Prelude.{◌≡◌, cond, ◌-◌, ◌^◌, ◌≤◌};
ghost use Rattle.numbers.specs.Numbers.{minus};

// A number as its sign and its size.
#[derive(Clone, Copy, PartialEq, Eq)]
pub struct Signed {
    pub negative: bool,
    pub size: u32,
}

// a - b
pub fn difference(a: u32, b: u32) -> Signed
    ensures { result ≡ minus a b }
{
    Signed {
        negative: a < b,
        size: a.abs_diff(b),
    }
}

// 2^k
pub fn power(k: u32) -> u64
    requires { k ≤ 16 }
    ensures { (result ≡ 2 ^ k) × ((1 ≤ result) × (result ≤ 2 ^ 16)) }
{
    1u64 << k
}

// One of two numbers.
// INLINING: both are computed already, so that LLVM makes a conditional move and no branch.
pub fn pick<T: Copy>(test: bool, a: T, b: T) -> T
    ensures { result ≡ cond test a b }
{
    if test { a } else { b }
}
