// Document 01, Pass and line: what reading and writing a pass share: the context of a sample, its quantiser and its record.
#![tactic(auto)]

ghost use Rattle.std.specs.Prelude.{◌≡◌, ◌+◌, ◌*◌, ◌^◌, ◌≤◌, ◌<◌, max, length, get_or, set};
ghost use Rattle.statistics.specs.Statistics.{updated};
ghost use Rattle.statistics.specs.Inside.{InRange};
ghost use Rattle.prediction.specs.Inside.{ContextRanges};
ghost use Rattle.prediction.specs.Predictions.{flatness_of};
ghost use Rattle.code.specs.Samples.{residual_of, choice_of};
ghost use Rattle.pass_steps.specs.Contexts.{used_base, used_weight, place_of, look_of, slot_of, no_record};
ghost use Rattle.pass_steps.specs.Values.{zip_records, SetInRange, AreKs, even_at, odd_at, context_at};

use pass_schedule::Plan;
use prediction::Context;
use statistics::Record;

// The records of a set, 56 of even positions and then 56 of odd ones, as two arrays: so they can be lent to a function.
#[derive(Clone, Copy)]
pub struct Set {
    pub sums: [u32; 112],
    pub ns: [u32; 112],
}

// The quantisers of a line, the main one and then the three flat ones, as an array for each of their numbers.
#[derive(Clone, Copy)]
pub struct Quantisers {
    pub base: u32,
    pub totals: [u32; 4],
    pub raws: [u32; 4],
    pub limits: [u32; 4],
}

// What the coding of a sample goes by: the quantiser, its base, the gradient's sign, and the record's place.
#[derive(Clone, Copy)]
pub struct Look {
    pub choice: usize,
    pub base: u32,
    pub negative: bool,
    pub place: usize,
}

// The two samples at position p of a pass, in lines of w samples of that depth.
#[derive(Clone, Copy)]
pub struct Spot {
    pub w: usize,
    pub bits: u32,
    pub plan: Plan,
    pub p: usize,
}

// The place before that of position p of a colour line, where its left neighbour stands.
pub fn left_of(w: usize, line: usize, p: usize) -> usize
    requires { (w ≤ 512) × ((p < w) × ((2 ≤ line) × (line ≤ 17))) }
    ensures { (result ≡ line * (w + 2) + p) × ((2 * (w + 2) ≤ result) × (result + 2 < 18 * (w + 2))) }
{
    line * (w + 2) + p
}

// The context of the sample after place i, at an even and at an odd position, in lines that are s apart.
fn even_context(lines: &[u16], s: usize, i: usize) -> Context
    requires { (s ≤ 514) × ((2 * s ≤ i) × (i + 2 < length lines.now)) }
    ensures { (result ≡ even_at lines.now s i) × ContextRanges result }
{
    prediction::even(
        u32::from(lines[i + 1 - 2 * s]),
        u32::from(lines[i - s]),
        u32::from(lines[i + 1 - s]),
        u32::from(lines[i + 2 - s]),
    )
}

fn odd_context(lines: &[u16], s: usize, i: usize) -> Context
    requires { (s ≤ 514) × ((2 * s ≤ i) × (i + 2 < length lines.now)) }
    ensures { (result ≡ odd_at lines.now s i) × ContextRanges result }
{
    prediction::odd(
        u32::from(lines[i]),
        u32::from(lines[i + 2]),
        u32::from(lines[i + 1 - s]),
        u32::from(lines[i - s]),
        u32::from(lines[i + 2 - s]),
    )
}

// The same for position p. Once this is taken into the loop of a pass, where the parity of p is known, the test is gone.
pub fn context_at(lines: &[u16], s: usize, i: usize, p: usize) -> Context
    requires { (s ≤ 514) × ((2 * s ≤ i) × (i + 2 < length lines.now)) }
    ensures { (result ≡ context_at lines.now s i p) × ContextRanges result }
{
    if p % 2 == 0 {
        return even_context(lines, s, i);
    }
    odd_context(lines, s, i)
}

// The base of the quantiser that is chosen in a line with that base.
pub fn used_base(choice: u32, base: u32) -> u32
    ensures { (result ≡ used_base base choice) × (result ≤ max base choice) }
{
    if choice == 0 { base } else { choice - 1 }
}

fn used_weight(choice: u32) -> u32
    ensures { (result ≡ used_weight choice) × (result ≤ 9) }
{
    if choice == 0 { 9 } else { 3 }
}

// Where a record stands among the 56 of its parity.
pub fn place_of(choice: u32, size: u32) -> usize
    requires { (choice ≤ 3) × (size ≤ 40) }
    ensures { result ≡ place_of choice size }
{
    if choice == 0 {
        return size as usize;
    }
    (36 + 5 * choice + size) as usize
}

// What a sample's coding goes by in a lossless line, with base 0: its thresholds are constants.
fn lossless_look(x: Context) -> Look
    requires { ContextRanges x }
    ensures { (result ≡ look_of 0 x) × ((result.choice ≤ 3) × ((result.base < 256) × (result.place < 56))) }
{
    let g = quantiser::gradient(0, 9, x.first, x.second);
    Look {
        choice: 0,
        base: 0,
        negative: g.negative,
        place: g.size as usize,
    }
}

// The same in any line, once its quantiser is chosen. The thresholds of the line's base serve flat quantisers too, whose differences are small; so only
// the first threshold waits for the choice.
fn look_with(base: u32, choice: u32, x: Context) -> Look
    requires { (base < 256) × ((choice ≤ 3) × ((choice ≡ choice_of base (flatness_of x)) × ContextRanges x)) }
    ensures { (result ≡ look_of base x) × ((result.choice ≤ 3) × ((result.base < 256) × (result.place < 56))) }
{
    let used = used_base(choice, base);
    let t = quantiser::thresholds_of(base).with_base(used);
    let g = quantiser::gradient_by(t, used_weight(choice), x.first, x.second);
    Look {
        choice: choice as usize,
        base: used,
        negative: g.negative,
        place: place_of(choice, g.size),
    }
}

// What a sample's coding goes by. A lossless line comes first.
pub fn look_of(base: u32, x: Context) -> Look
    requires { (base < 256) × ContextRanges x }
    ensures { (result ≡ look_of base x) × ((result.choice ≤ 3) × ((result.base < 256) × (result.place < 56))) }
{
    if base == 0 {
        return lossless_look(x);
    }
    look_with(base, code::choice(base, x.flatness()), x)
}

// Where the record of a sample at position p is in its set, if it is at that place among the 56 of its parity.
pub fn slot_of(p: usize, place: usize) -> usize
    requires { place < 56 }
    ensures { (result ≡ slot_of p place) × (result < 112) }
{
    place + 56 * (p % 2)
}

// The record at a place of a set.
pub fn record_at(sums: &[u32; 112], ns: &[u32; 112], slot: usize) -> Record
    requires { (slot < 112) × SetInRange (zip_records sums.now ns.now) }
    ensures { (result ≡ get_or (zip_records sums.now ns.now) slot no_record) × InRange result }
{
    Record {
        sum: sums[slot],
        n: ns[slot],
    }
}

// The record that was there is updated by its code.
pub fn update_at(sums: &mut [u32; 112], ns: &mut [u32; 112], slot: usize, old: Record, code: u32)
    requires code_bound { (code < 63 * 2 ^ 15) × ((slot < 112) × InRange old) }
    requires set_in_range { SetInRange (zip_records sums.old ns.old) }
    ensures ns_after { zip_records sums.new ns.new
        ≡ set (zip_records sums.old ns.old) slot (updated old (residual_of code).size) }
    ensures set_in_range_2 { SetInRange (zip_records sums.new ns.new) }
{
    let new = old.update(code::residual_size(code));
    sums[slot] = new.sum;
    ns[slot] = new.n;
}

// The k of each record of a set. Reading keeps them beside the set, since finding k when a code is read would hold the code up.
// INLINING: where the sum is small k is 0 and nothing is stored. LLVM makes a shorter loop of a conditional store than of four at once.
pub fn ks_of(sums: &[u32; 112], ns: &[u32; 112]) -> [u32; 112]
    requires { SetInRange (zip_records sums.now ns.now) }
    ensures { AreKs (zip_records sums.now ns.now) result }
{
    let mut ks = [0u32; 112];
    for j in 0..112 {
        let t = record_at(sums, ns, j);
        if t.n < t.sum {
            ks[j] = t.k_by_lengths();
        }
    }
    ks
}

// The k at a place of a set.
pub fn k_at(ks: &[u32; 112], slot: usize) -> u32
    requires { slot < 112 }
    ensures { result ≡ get_or ks.now slot 0 }
{
    ks[slot]
}

// `update_at` for a set that has its ks beside it.
pub fn update_with_k(
    sums: &mut [u32; 112],
    ns: &mut [u32; 112],
    ks: &mut [u32; 112],
    slot: usize,
    old: Record,
    code: u32,
)
    requires code_bound { (code < 63 * 2 ^ 15) × ((slot < 112) × InRange old) }
    requires set_in_range { SetInRange (zip_records sums.old ns.old) }
    requires are_ks { AreKs (zip_records sums.old ns.old) ks.old }
    ensures ns_after { zip_records sums.new ns.new
        ≡ set (zip_records sums.old ns.old) slot (updated old (residual_of code).size) }
    ensures set_in_range_2 { SetInRange (zip_records sums.new ns.new) }
    ensures are_ks_2 { AreKs (zip_records sums.new ns.new) ks.new }
{
    update_at(sums, ns, slot, old, code);
    ks[slot] = record_at(sums, ns, slot).k_by_lengths();
}
