// Records of a set by their places: numbers of their quantisers, their update by lists for n, and the sample of a code.
ghost use Rattle.std.specs.Prelude.{◌≡◌, ◌+◌, ◌-◌, ◌*◌, ◌/◌, ◌%◌, ◌^◌, ◌≤◌, ◌<◌, eqb, length, get_or, set};
ghost use Rattle.std.specs.Int.Count.{count_leading_zeros};
ghost use Rattle.statistics.specs.Statistics.{k_of, updated};
ghost use Rattle.statistics.specs.Inside.{InRange};
ghost use Rattle.code.specs.Samples.{residual_of, sample_of};
ghost use Rattle.pass_steps.specs.Contexts.{no_record};
ghost use Rattle.pass_steps.specs.Values.{zip_records, SetInRange, AreKs};
ghost use Rattle.pass_ahead.specs.Arrays.{Filled};
ghost use Rattle.pass_ahead.specs.Tables.{AreNext, AreDigits, choice_at, Five, BySlot};

// Five entries from place `at` on.
fn put_five(r: &mut [u16; 112], at: usize, v: u16)
    requires { (at ≤ 107) × (length r.old ≡ 112) }
    ensures { (length r.new ≡ 112) × Five at v r.old r.new }
{
    r[at..at + 5].fill(v);
}

// A number of each of the four quantisers, for each record of a set.
pub fn by_slot(main: u16, first: u16, second: u16, third: u16) -> [u16; 112]
    ensures { Filled 112 (BySlot main first second third) 112 result }
{
    let mut r = [main; 112];
    put_five(&mut r, 41, first);
    put_five(&mut r, 46, second);
    put_five(&mut r, 51, third);
    put_five(&mut r, 97, first);
    put_five(&mut r, 102, second);
    put_five(&mut r, 107, third);
    r
}

// ---- a record and its k

// What n becomes, and the digits of that less 1, for each n from 1 to 64.
const NEXT: [u8; 65] = [
    1, 2, 3, 4, 5, 6, 7, 8, 9, 10, 11, 12, 13, 14, 15, 16, 17, 18, 19, 20, 21, 22, 23, 24, 25, 26,
    27, 28, 29, 30, 31, 32, 33, 34, 35, 36, 37, 38, 39, 40, 41, 42, 43, 44, 45, 46, 47, 48, 49, 50,
    51, 52, 53, 54, 55, 56, 57, 58, 59, 60, 61, 62, 63, 64, 33,
];

const DIGITS: [u8; 65] = [
    0, 1, 1, 2, 2, 2, 2, 3, 3, 3, 3, 3, 3, 3, 3, 4, 4, 4, 4, 4, 4, 4, 4, 4, 4, 4, 4, 4, 4, 4, 4, 5,
    5, 5, 5, 5, 5, 5, 5, 5, 5, 5, 5, 5, 5, 5, 5, 5, 5, 5, 5, 5, 5, 5, 5, 5, 5, 5, 5, 5, 5, 5, 5, 6,
    5,
];

pub fn next_table() -> [u8; 65]
    ensures { AreNext result }
{
    NEXT
}

pub fn digits_table() -> [u8; 65]
    ensures { AreDigits result }
{
    DIGITS
}

// The k of a record, from the digits of n less 1.
fn k_with(sum: u32, n: u32, digits: u32) -> u32
    requires { InRange (record { sum = sum; n = n }) × (digits ≡ 31 - count_leading_zeros 32 n) }
    ensures { result ≡ k_of (record { sum = sum; n = n }) }
{
    let least = 31 - u32::leading_zeros(sum | n | 1) - digits;
    (least + u32::from(n << least < sum)).min(15)
}

// `pass_steps::update_with_k` of the record that is there, by lists for n.
pub fn update_by(
    sums: &mut [u32; 112],
    ns: &mut [u32; 112],
    ks: &mut [u32; 112],
    next: &[u8; 65],
    digits: &[u8; 65],
    slot: usize,
    code: u32,
)
    requires code_bound { (code < 63 * 2 ^ 15) × ((slot < 112) × (AreNext next.now × AreDigits digits.now)) }
    requires set_in_range { SetInRange (zip_records sums.old ns.old) }
    requires are_ks { AreKs (zip_records sums.old ns.old) ks.old }
    ensures ns_after { zip_records sums.new ns.new
        ≡ set (zip_records sums.old ns.old) slot
        (updated (get_or (zip_records sums.old ns.old) slot no_record) (residual_of code).size) }
    ensures set_in_range_2 { SetInRange (zip_records sums.new ns.new) }
    ensures are_ks_2 { AreKs (zip_records sums.new ns.new) ks.new }
{
    let n = ns[slot];
    let old = n as usize;
    let sum = (sums[slot] + code::residual_size(code)) >> u32::from(n == 64);
    let more = u32::from(next[old]);
    sums[slot] = sum;
    ns[slot] = more;
    ks[slot] = k_with(sum, more, u32::from(digits[old]));
}

// ---- a sample

// The quantiser of a record.
fn choice_at(slot: usize) -> usize
    ensures { (result ≡ choice_at slot) × (result ≤ 3) }
{
    let place = slot % 56;
    if place < 41 {
        return 0;
    }
    (place - 36) / 5
}

// `code::samples::sample` by the step 2 * base + 1, and by a number that is odd where the gradient is negative.
pub fn sample_by(
    m: u32,
    step: u32,
    totals: &[u32; 4],
    slot: usize,
    flip: u32,
    prediction: u32,
    code: u32,
) -> u32
    requires m_bound { (m < 2 ^ 16) × ((step < 512) × ((step % 2 ≡ 1) × ((prediction < 2 ^ 16) × ((code < 63 * 2 ^ 15) × (flip < 2 ^ 16))))) }
    requires slot_bound { get_or totals.now (choice_at slot) 0 ≤ 2 ^ 16 }
    ensures { (result ≡ sample_of m (step / 2) (get_or totals.now (choice_at slot) 0) (eqb (flip % 2) 1) prediction code) × (result ≤ m) }
{
    let minus = (flip + code) % 2 == 1;
    let d = code::residual_size(code) * step;
    let x = code::moved(minus, prediction, d);
    if x <= m {
        return x;
    }
    let total = totals[choice_at(slot)];
    if minus {
        return code::wrap(m, step / 2, total * step, prediction, d);
    }
    code::wrap(m, step / 2, total * step, prediction + d, 0)
}
