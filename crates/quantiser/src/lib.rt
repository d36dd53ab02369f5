// Document 01, Quantiser: the main and the flat quantisers, the levels of differences and the gradient.
#![tactic(auto)]

ghost use Rattle.std.specs.Prelude.{◌≡◌, ◌+◌, ◌-◌, ◌*◌, ◌^◌, ◌≤◌, ◌<◌, leb};
ghost use Rattle.numbers.specs.Numbers.{up, down, flag, least_from};
ghost use Rattle.quantiser.specs.Quantisers.{largest, quantiser_of, main_of, flat_of, start_sum};
ghost use Rattle.quantiser.specs.Inside.{QuantiserRanges};
ghost use Rattle.quantiser.specs.Inside.{thresholds_of, Serves};
ghost use Rattle.quantiser.specs.Quantisers.{level_size, level_of, gradient_of};

use numbers::Signed;

#[derive(Clone, Copy)]
pub struct Quantiser {
    pub base: u32,
    // How often the first level counts in the gradient: 9, or 3 for a flat quantiser.
    pub weight: u32,
    pub total: u32,
    // The bits of a long code after its one bit.
    pub raw: u32,
    // The zeros at which a code is long.
    pub limit: u32,
}

// The largest sample.
pub fn largest(bits: u32) -> u32
    requires { bits ≤ 16 }
    ensures { (result ≡ largest bits) × (result < 2 ^ 16) }
{
    (1u32 << bits) - 1
}

// log2 of v, rounded up.
fn log2ceil(v: u32) -> u32
    requires { (1 ≤ v) × (v ≤ 2 ^ 16) }
    ensures { (result ≡ least_from 16 (λ j. leb v (2 ^ j)) 0) × (result ≤ 16) }
{
    32 - u32::leading_zeros(v - 1)
}

impl Quantiser {
    // One formula for the main quantisers and the flat ones.
    fn new(bits: u32, base: u32, weight: u32) -> Quantiser
        requires { (12 ≤ bits) × ((bits ≤ 16) × ((base < 256) × (weight ≤ 9))) }
        ensures { (result ≡ quantiser_of bits base weight) × QuantiserRanges result }
    {
        let total = (largest(bits) + 2 * base) / (2 * base + 1) + 1;
        let raw = log2ceil(total);
        Quantiser {
            base,
            weight,
            total,
            raw,
            limit: 4 * bits - raw - 1,
        }
    }

    // The main quantiser of a line; a lossless line has base 0.
    pub fn main(bits: u32, base: u32) -> Quantiser
        requires { (12 ≤ bits) × ((bits ≤ 16) × (base < 256)) }
        ensures { (result ≡ main_of bits base) × QuantiserRanges result }
    {
        Quantiser::new(bits, base, 9)
    }

    // Flat quantiser 1, 2 or 3.
    pub fn flat(bits: u32, i: u32) -> Quantiser
        requires { (12 ≤ bits) × ((bits ≤ 16) × ((1 ≤ i) × (i ≤ 3))) }
        ensures { (result ≡ flat_of bits i) × QuantiserRanges result }
    {
        Quantiser::new(bits, i - 1, 3)
    }

    // The sum that its records start with.
    pub fn start_sum(self) -> u32
        requires { self.total ≤ 2 ^ 16 }
        ensures { (result ≡ start_sum self) × (result ≤ 1024) }
    {
        ((self.total + 32) / 64).max(2)
    }
}

// What the levels of a quantiser with that base go by. The first threshold is the base itself.
#[derive(Clone, Copy)]
pub struct Thresholds {
    pub base: u32,
    pub second: u32,
    pub third: u32,
    pub fourth: u32,
}

pub fn thresholds_of(base: u32) -> Thresholds
    requires { base < 256 }
    ensures { result ≡ thresholds_of base }
{
    Thresholds {
        base,
        second: 3 * base + 18,
        third: 5 * base + 67,
        fourth: 7 * base + 276,
    }
}

impl Thresholds {
    // The thresholds of another base, but for the first. They serve small differences just as well, and need not be computed anew.
    pub fn with_base(self, base: u32) -> Thresholds
        ensures { result ≡ record { base = base; second = self.second; third = self.third; fourth = self.fourth } }
    {
        Thresholds {
            base,
            second: self.second,
            third: self.third,
            fourth: self.fourth,
        }
    }
}

// 1 if m has reached the threshold, else 0.
// INLINING: asked as "above the number before it", so that LLVM adds the carry of the test.
fn reached(threshold: u32, m: u32) -> u32
    requires { 1 ≤ threshold }
    ensures { (result ≡ flag (leb threshold m)) × (result ≤ 1) }
{
    u32::from(threshold - 1 < m)
}

// The size of the level of a difference of size m: the thresholds that it has reached, the first one passed, counted without a branch.
fn level_size(t: Thresholds, m: u32) -> u32
    requires { (t.base < 256) × Serves t m }
    ensures { (result ≡ level_size t.base m) × (result ≤ 4) }
{
    reached(t.base + 1, m) + reached(t.second, m) + reached(t.third, m) + reached(t.fourth, m)
}

// The level of a difference, plus 4, so that it is not negative.
pub fn raised_level(t: Thresholds, v: Signed) -> u32
    requires { (t.base < 256) × Serves t v.size }
    ensures { (result + down (level_of t.base v) ≡ 4 + up (level_of t.base v)) × (result ≤ 8) }
{
    let size = level_size(t, v.size);
    if v.negative { 4 - size } else { 4 + size }
}

// The gradient, for whoever has thresholds at hand. Both levels are raised by 4, so the sum is raised by 4 * weight + 4.
pub fn gradient_by(t: Thresholds, weight: u32, first: Signed, second: Signed) -> Signed
    requires { (t.base < 256) × ((weight ≤ 9) × (Serves t first.size × Serves t second.size)) }
    ensures { (result ≡ gradient_of t.base weight first second) × (result.size ≤ 4 * weight + 4) }
{
    let raised = weight * raised_level(t, first) + raised_level(t, second);
    numbers::difference(raised, 4 * weight + 4)
}

// The gradient.
pub fn gradient(base: u32, weight: u32, first: Signed, second: Signed) -> Signed
    requires { (base < 256) × (weight ≤ 9) }
    ensures { (result ≡ gradient_of base weight first second) × (result.size ≤ 4 * weight + 4) }
{
    gradient_by(thresholds_of(base), weight, first, second)
}
