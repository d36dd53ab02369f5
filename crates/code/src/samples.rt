// From a code to its sample, and the other way: the code of a wanted sample.
ghost use Rattle.std.specs.Prelude.{◌≡◌, ◌+◌, ◌*◌, ◌/◌, ◌^◌, ◌<◌, ◌≤◌, if◌then◌else◌, nat_lt};
ghost use Rattle.code.specs.Samples.{choice_of, residual_of, wrap, sample_of};
ghost use Rattle.code.specs.Inside.{Moved};
ghost use Rattle.code.specs.Wanted.{code_of_residual};
ghost use Rattle.code.specs.Nearest.{code_near};

// The flatness from which on a quantiser is passed over: the main one is used where all three are.
fn first_bound(base: u32) -> u32
    ensures { result ≡ (if nat_lt base 1 then 0 else 6) }
{
    if base < 1 { 0 } else { 6 }
}

fn second_bound(base: u32) -> u32
    ensures { result ≡ (if nat_lt base 2 then (if nat_lt base 1 then 0 else 6) else 7) }
{
    if base < 2 { first_bound(base) } else { 7 }
}

fn third_bound(base: u32) -> u32
    ensures { result ≡ (if nat_lt base 3 then (if nat_lt base 2 then (if nat_lt base 1 then 0 else 6) else 7) else 8) }
{
    if base < 3 { second_bound(base) } else { 8 }
}

// The quantiser of a sample in a line with that base: 0 the main one, 1 to 3 a flat one. The bounds that its flatness has reached are
// counted without a branch.
pub fn choice(base: u32, flatness: u32) -> u32
    ensures { (result ≡ choice_of base flatness) × (result ≤ 3) }
{
    let first = u32::from(first_bound(base) <= flatness);
    let second = u32::from(second_bound(base) <= flatness);
    let third = u32::from(third_bound(base) <= flatness);
    (first + second + third + 1) % 4
}

// The size of a code's residual.
pub fn residual_size(code: u32) -> u32
    requires { code < 63 * 2 ^ 15 }
    ensures { (result ≡ (residual_of code).size) × (result ≤ 63 * 2 ^ 14) }
{
    (code + 1) / 2
}

// a - b, wrapped around once where it lies outside of -q..m + q, and clamped to 0..m.
pub fn wrap(m: u32, q: u32, span: u32, a: u32, b: u32) -> u32
    requires { (m < 2 ^ 16) × ((q < 256) × ((span < 2 ^ 30) × ((a < 2 ^ 30) × (b < 2 ^ 30)))) }
    ensures { (result ≡ wrap m q span a b) × (result ≤ m) }
{
    if a + q < b {
        return (a + span).saturating_sub(b).min(m);
    }
    if m + q + b < a {
        return a.saturating_sub(b + span).min(m);
    }
    a.saturating_sub(b).min(m)
}

// p - d or p + d; below 0 it wraps to a number that is larger than any sample.
pub fn moved(minus: bool, p: u32, d: u32) -> u32
    requires { (p < 2 ^ 16) × (d < 2 ^ 30) }
    ensures { Moved minus p d result }
{
    if minus {
        return std::num::wrapping_sub_u32(p, d);
    }
    p + d
}

// The sample of a prediction and a code. A sample in 0..m, the common case, is tested first.
pub fn sample(m: u32, base: u32, total: u32, negative: bool, prediction: u32, code: u32) -> u32
    requires { (m < 2 ^ 16) × ((base < 256) × ((total ≤ 2 ^ 16) × ((prediction < 2 ^ 16) × (code < 63 * 2 ^ 15)))) }
    ensures { (result ≡ sample_of m base total negative prediction code) × (result ≤ m) }
{
    let step = 2 * base + 1;
    let minus = negative != (code % 2 == 1);
    let d = residual_size(code) * step;
    let x = moved(minus, prediction, d);
    if x <= m {
        return x;
    }
    if minus {
        return wrap(m, base, total * step, prediction, d);
    }
    wrap(m, base, total * step, prediction + d, 0)
}

// ---- the other way: the code of a wanted sample

// The code of a residual: twice its size, less 1 if it is negative.
fn code_of_residual(negative: bool, size: u32) -> u32
    requires { size ≤ 2 ^ 17 }
    ensures { result ≡ code_of_residual (record { negative = negative; size = size }) }
{
    if negative {
        return (2 * size).saturating_sub(1);
    }
    2 * size
}

// How many steps of 2 * base + 1 come nearest to a distance.
fn nearest_size(base: u32, distance: u32) -> u32
    requires { (base < 256) × (distance < 2 ^ 16) }
    ensures { (result ≡ (distance + base) / (2 * base + 1)) × (result < 2 ^ 17) }
{
    (distance + base) / (2 * base + 1)
}

// The code, among the total code values of a quantiser with that base, of the sample nearest to v.
pub fn code_near(base: u32, total: u32, negative: bool, prediction: u32, v: u32) -> u32
    requires { (base < 256) × ((total ≤ 2 ^ 16) × ((prediction < 2 ^ 16) × (v < 2 ^ 16))) }
    ensures { result ≡ code_near base total negative prediction v }
{
    let wanted = numbers::difference(v, prediction);
    let size = nearest_size(base, wanted.size);
    let down = negative != wanted.negative;
    let code = code_of_residual(down, size);
    if code < total {
        return code;
    }
    code_of_residual(!down, total.saturating_sub(size))
}
