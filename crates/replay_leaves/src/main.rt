// Replay, a program: the leaves on inputs whose answers the original Rust gave. It counts for each kind of record how many were compared
// and how many differ. The records are in answers.bin; rust/record-leaves writes them and documents their layout. A record whose numbers
// are out of a leaf's range differs.
#![tactic(auto)]

ghost use Rattle.std.specs.Prelude.{◌*◌, ◌^◌, ◌≤◌, ◌<◌, ◌↔◌, IsTrue, All, length};
ghost use Rattle.prediction.specs.Inside.{ContextRanges};
ghost use Rattle.quantiser.specs.Inside.{QuantiserRanges};

use bits::BitPosition;
use code::{Code, Place};
use numbers::Signed;
use prediction::Context;
use quantiser::Quantiser;
use replay_common::{Outcome, replay, word};
use statistics::Record;
use std::{array, io};

// The bytes of a record: twelve words, and 32 bytes to read a code from.
const RECORD: usize = 80;

// What a record tests. A record that is cut off has no kind.
#[derive(Clone, Copy)]
enum Kind {
    // The k of a sum and an n.
    K,
    // The level of a difference.
    Level,
    // The numbers of a quantiser.
    Quantiser,
    // The neighbours of a sample at an even position.
    Even,
    // The neighbours of a sample at an odd position.
    Odd,
    // A code is read, and gives a sample and a changed record.
    Code,
    None,
}

// The kinds' names, in their order.
const NAMES: [&str; 7] = ["k", "level", "quantiser", "even", "odd", "code", "no kind"];

impl From<u32> for Kind {
    fn from(number: u32) -> Self {
        match number {
            1 => Kind::K,
            2 => Kind::Level,
            3 => Kind::Quantiser,
            4 => Kind::Even,
            5 => Kind::Odd,
            6 => Kind::Code,
            _ => Kind::None,
        }
    }
}

// A number with its sign in the top bit.
fn signed(w: u32) -> Signed {
    Signed {
        negative: 0x8000_0000 <= w,
        size: w % 0x8000_0000,
    }
}

// Whether that many residuals may be counted in a record.
fn may_count(n: u32) -> bool
    ensures { IsTrue result ↔ ((1 ≤ n) × (n ≤ 64)) }
{
    (1..=64).contains(&n)
}

// Whether samples may have that many bits.
fn is_depth(bits: u32) -> bool
    ensures { IsTrue result ↔ ((12 ≤ bits) × (bits ≤ 16)) }
{
    (12..=16).contains(&bits)
}

// Whether these are samples of 16 bits.
fn are_samples(neighbours: [u32; 4]) -> bool
    ensures { IsTrue result ↔ All (λ x. x < 2 ^ 16) neighbours }
{
    neighbours.iter().all(|x| *x < 0x1_0000)
}

fn k_agrees(w: [u32; 12]) -> bool {
    let [_, sum, n, k, ..] = w;
    may_count(n) && Record { sum, n }.k() == k
}

// The main quantiser of a base, or flat quantiser 1, 2 or 3.
fn chosen(bits: u32, choice: u32, base: u32) -> Quantiser
    requires { (12 ≤ bits) × ((bits ≤ 16) × ((choice ≤ 3) × (base < 256))) }
    ensures { QuantiserRanges result }
{
    if choice == 0 {
        return Quantiser::main(bits, base);
    }
    Quantiser::flat(bits, choice)
}

// With weight 1 and one difference 0 the gradient is the level of the other.
fn level_agrees(q: Quantiser, v: Signed, level: Signed) -> bool
    requires { QuantiserRanges q }
{
    let zero = signed(0);
    quantiser::gradient(q.base, 1, v, zero) == level
        && quantiser::gradient(q.base, 1, zero, v) == level
}

fn numbers_agree(q: Quantiser, w: [u32; 12]) -> bool
    requires { QuantiserRanges q }
{
    let numbers = [q.base, q.total, q.raw, q.limit, q.start_sum(), q.weight];
    &w[3..9] == numbers.as_slice()
}

fn quantiser_agrees(kind: Kind, w: [u32; 12]) -> bool {
    let [_, bits, choice, base, v, level, ..] = w;
    if !is_depth(bits) || 3 < choice || 255 < base {
        return false;
    }
    let q = chosen(bits, choice, base);
    match kind {
        Kind::Level => level_agrees(q, signed(v), signed(level)),
        _ => numbers_agree(q, w),
    }
}

// Whether the differences pick the record of that index, and the code gives that sample.
fn sample_agrees(c: Context, q: Quantiser, m: u32, code: u32, index: u32, sample: u32) -> bool
    requires { ContextRanges c × (QuantiserRanges q × ((m < 2 ^ 16) × (code < 63 * 2 ^ 15))) }
{
    let gradient = quantiser::gradient(q.base, q.weight, c.first, c.second);
    let ours = code::sample(m, q.base, q.total, gradient.negative, c.prediction, code);
    gradient.size == index && ours == sample
}

// Even and odd: the prediction, the quantiser and the record that the differences pick, and the sample of the code 2.
fn context_agrees(w: [u32; 12], c: Context) -> bool
    requires { ContextRanges c }
{
    let [_, bits, base, ..] = w;
    let [.., prediction, wanted, index, sample] = w;
    if !is_depth(bits) || 255 < base {
        return false;
    }
    let choice = code::choice(base, c.flatness());
    let q = chosen(bits, choice, base);
    c.prediction == prediction
        && choice == wanted
        && sample_agrees(c, q, quantiser::largest(bits), 2, index, sample)
}

fn even_agrees(w: [u32; 12]) -> bool {
    let [_, _, _, rf, rc, rb, rd, ..] = w;
    are_samples([rf, rc, rb, rd]) && context_agrees(w, prediction::even(rf, rc, rb, rd))
}

fn odd_agrees(w: [u32; 12]) -> bool {
    let [_, _, _, ra, rg, rb, rc, rd, ..] = w;
    are_samples([ra, rg, rb, rc]) && context_agrees(w, prediction::odd(ra, rg, rb, rc, rd))
}

// Whether the residual of that code changes the record as it was changed.
fn record_agrees(w: [u32; 12], code: u32) -> bool
    requires { code < 63 * 2 ^ 15 }
{
    let sum = w[7];
    let [.., n] = w[1].to_be_bytes();
    let [_, after, ..] = w[10].to_be_bytes();
    let n = u32::from(n);
    if !may_count(n) || n * 1032192 < sum {
        return false;
    }
    let next = Record { sum, n }.update(code::residual_size(code));
    next.sum == w[9] && next.n == u32::from(after)
}

// Whether what was read is what the original read: that no one bit was left, or a code with that end, sample and record.
fn coded_agrees(w: [u32; 12], c: Context, q: Quantiser, m: u32, coded: Option<Code>) -> bool
    requires { ContextRanges c × (QuantiserRanges q × (m < 2 ^ 16)) }
{
    let [overrun, _, _, index] = w[10].to_be_bytes();
    let Some(got) = coded else {
        return overrun == 1;
    };
    let value = got.value;
    if 2064383 < value {
        return false;
    }
    let after = got.after;
    let sample = sample_agrees(c, q, m, value, u32::from(index), w[8]);
    (overrun == 0) & (after.0 == w[11] as u64) & sample & record_agrees(w, value)
}

// Whether a pass takes the code that was read.
fn readers_agree(coded: Option<Code>, taken: Option<(u32, Place)>) -> bool {
    match (coded, taken) {
        (Some(got), Some((value, place))) => value == got.value && place.at.0 == got.after.0,
        (None, None) => true,
        _ => false,
    }
}

// Whether a short code that is taken at once is the code that was read.
fn short_agrees(coded: Option<Code>, found: Option<(u32, BitPosition)>) -> bool {
    match (coded, found) {
        (_, None) => true,
        (Some(got), Some((value, at))) => value == got.value && at.0 == got.after.0,
        (None, Some(_)) => false,
    }
}

// Code, from the reading of the code on.
fn reading_agrees(w: [u32; 12], s: &[u8], c: Context, q: Quantiser, m: u32) -> bool
    requires { (length s.now < 2 ^ 32) × (ContextRanges c × (QuantiserRanges q × (m < 2 ^ 16))) }
{
    let [.., n] = w[1].to_be_bytes();
    let n = u32::from(n);
    if !may_count(n) {
        return false;
    }
    let k = Record { sum: w[7], n }.k();
    let at = BitPosition(u64::from(w[2]));
    let coded = code_reader::read_code(s, at, k, q.limit, q.raw);
    let taken = code_reader::take_any(s, at, true, 0, m, k, q.limit, q.raw);
    let found = code_reader::short_code(s, at, m, k, q.limit);
    coded_agrees(w, c, q, m, coded) && readers_agree(coded, taken) && short_agrees(coded, found)
}

// Code, from the flatness on.
fn choice_agrees(w: [u32; 12], s: &[u8], c: Context) -> bool
    requires { (length s.now < 2 ^ 32) × ContextRanges c }
{
    let [bits, _, base, _] = w[1].to_be_bytes();
    let [_, _, wanted, _] = w[10].to_be_bytes();
    let bits = u32::from(bits);
    let base = u32::from(base);
    if !is_depth(bits) {
        return false;
    }
    let flatness = c.flatness();
    let choice = code::choice(base, flatness);
    let q = chosen(bits, choice, base);
    flatness == w[3]
        && choice == u32::from(wanted)
        && reading_agrees(w, s, c, q, quantiser::largest(bits))
}

fn code_agrees(w: [u32; 12], s: &[u8]) -> bool
    requires { length s.now < 2 ^ 32 }
{
    let first = signed(w[4]);
    let second = signed(w[5]);
    let prediction = w[6];
    are_samples([first.size, second.size, prediction, 0])
        && choice_agrees(
            w,
            s,
            Context {
                prediction,
                first,
                second,
            },
        )
}

fn agrees(kind: Kind, w: [u32; 12], s: &[u8]) -> bool
    requires { length s.now < 2 ^ 32 }
{
    match kind {
        Kind::K => k_agrees(w),
        Kind::Level | Kind::Quantiser => quantiser_agrees(kind, w),
        Kind::Even => even_agrees(w),
        Kind::Odd => odd_agrees(w),
        Kind::Code => code_agrees(w, s),
        Kind::None => false,
    }
}

fn compare(record: &[u8]) -> Outcome {
    let w = array::from_fn(|i| word(record, 4 * i));
    let (kind, agrees) = if record.len() == RECORD {
        let kind = Kind::from(w[0]);
        (kind, agrees(kind, w, &record[48..]))
    } else {
        (Kind::None, false)
    };
    Outcome {
        kind: kind as usize,
        compared: 1,
        differ: u64::from(!agrees),
    }
}

fn main(rt: HostRuntime) -> io::Result<()> {
    replay::<RECORD, _, _>(
        &rt,
        "answers.bin",
        20_000,
        &NAMES,
        |record, _| Ok(compare(record)),
    )
}
