// Document 01, Pass and line: contexts ahead of the codes. Everything that an even position needs from its neighbours is there before a pass
// begins, and so is the upper half of what an odd one needs. It is made here in loops that LLVM makes eight lanes wide.
#![tactic(auto)]

ghost use Rattle.std.specs.Prelude.{◌≡◌, ◌+◌, ◌-◌, ◌*◌, ◌/◌, ◌%◌, ◌^◌, ◌≤◌, ◌<◌, ltb, length, get_or};
ghost use Rattle.numbers.specs.Numbers.{distance, minus, flag};
ghost use Rattle.quantiser.specs.Quantisers.{level_size};
ghost use Rattle.quantiser.specs.Inside.{Serves};
ghost use Rattle.prediction.specs.Predictions.{most, even_prediction, extreme};
ghost use Rattle.code.specs.Samples.{choice_of};
ghost use Rattle.pass_steps.specs.Contexts.{used_base, used_weight, place_of, look_of};
ghost use Rattle.pass_steps.specs.Values.{odd_at};
ghost use Rattle.pass_ahead.specs.Looks.{packed_look, look_by, marks_of, bounds_of, reached_of, Marked, Raised, Part};
ghost use Rattle.pass_ahead.specs.Odds.{rc_at, rb_at, rd_at, Beyond, Upper, Continued, AimsAt, LossyAims, ByFlatness};
ghost use Rattle.pass_ahead.specs.Arrays.{Filled, Second, After, Rows, AheadRow, Ahead};

use numbers::Signed;
use quantiser::Thresholds;

mod records;

pub use records::{by_slot, digits_table, next_table, sample_by, update_by};

// ---- numbers of 16 bits. Some of the functions stand in 32 bits too, in prediction, quantiser, code and pass_steps. One generic function for both would need
// a trait of arithmetic with laws, and is no plainer; and in 32 bits the loops are only four lanes wide.

// Half of a sum that need not have 16 bits.
fn half_sum(a: u16, b: u16) -> u16
    ensures { result ≡ (a + b) / 2 }
{
    (a & b) + (a ^ b) / 2
}

fn is_most(a: u16, b: u16, c: u16) -> bool
    ensures { result ≡ most a b c }
{
    (b < a) & (c < a)
}

fn is_extreme(rb: u16, rc: u16, rd: u16) -> bool
    ensures { result ≡ extreme rb rc rd }
{
    ((rc < rb) & (rd < rb)) | ((rb < rc) & (rb < rd))
}

// ---- the contexts of even positions

// The prediction. The two that are kept of rf, rc and rd are halved first, so that it all has 16 bits.
fn even_prediction(rf: u16, rc: u16, rb: u16, rd: u16) -> u16
    ensures { result ≡ even_prediction rf rc rb rd }
{
    let f = rb.abs_diff(rf);
    let c = rc.abs_diff(rb);
    let d = rd.abs_diff(rb);
    let no_c = is_most(c, f, d);
    let no_d = is_most(d, f, c);
    let x = numbers::pick(no_c, rd, rc);
    let y = numbers::pick(no_c | no_d, rf, rd);
    half_sum(half_sum(x, y), rb)
}

// The base of a line, and what its thresholds after the first lie above.
#[derive(Clone, Copy)]
struct Marks {
    base: u16,
    second: u16,
    third: u16,
    fourth: u16,
}

fn marks_of(base: u16) -> Marks
    requires { base < 256 }
    ensures { result ≡ marks_of base }
{
    Marks {
        base,
        second: 3 * base + 17,
        third: 5 * base + 66,
        fourth: 7 * base + 275,
    }
}

// The size of the level of a difference of size m, by another base.
fn level_size16(used: u16, t: Marks, m: u16) -> u16
    requires { Marked used t m }
    ensures { (result ≡ level_size used m) × (result ≤ 4) }
{
    u16::from(used < m) + u16::from(t.second < m) + u16::from(t.third < m) + u16::from(t.fourth < m)
}

// The level of a - b, plus 4.
fn raised16(used: u16, t: Marks, a: u16, b: u16) -> u16
    requires { Marked used t (distance a b) }
    ensures { Raised used (minus a b) result × (result ≤ 8) }
{
    let size = level_size16(used, t, a.abs_diff(b));
    if a < b { 4 - size } else { 4 + size }
}

// A look as one number, by its gradient, raised by `middle`, and the place of its quantiser's records.
fn packed(raised: u16, middle: u16, place: u16) -> u16
    requires { (raised ≤ 80) × ((middle ≤ 40) × (place ≤ 51)) }
    ensures { result ≡ 2 * (place + distance raised middle) + flag (ltb raised middle) }
{
    2 * (place + raised.abs_diff(middle)) + u16::from(raised < middle)
}

// The look of an even position in a lossless line.
fn lossless_packed(rf: u16, rc: u16, rb: u16) -> u16
    ensures { result ≡ packed_look (look_by 0 (minus rb rf) (minus rc rb)) }
{
    let t = marks_of(0);
    packed(9 * raised16(0, t, rb, rf) + raised16(0, t, rc, rb), 40, 0)
}

// The flatness from which on a quantiser is passed over.
#[derive(Clone, Copy)]
struct Bounds {
    first: u16,
    second: u16,
    third: u16,
}

fn bounds_of(base: u16) -> Bounds
    ensures { result ≡ bounds_of base }
{
    let first = numbers::pick(base < 1, 0, 6);
    let second = numbers::pick(base < 2, first, 7);
    let third = numbers::pick(base < 3, second, 8);
    Bounds {
        first,
        second,
        third,
    }
}

fn choice16(b: Bounds, flatness: u16) -> u16
    ensures { (result ≡ reached_of b flatness) × (result ≤ 3) }
{
    (u16::from(b.first <= flatness)
        + u16::from(b.second <= flatness)
        + u16::from(b.third <= flatness)
        + 1)
        % 4
}

fn used_base16(choice: u16, base: u16) -> u16
    ensures { result ≡ used_base base choice }
{
    if choice == 0 { base } else { choice - 1 }
}

fn weight16(choice: u16) -> u16
    ensures { (result ≡ used_weight choice) × (result ≤ 9) }
{
    if choice == 0 { 9 } else { 3 }
}

// Where a quantiser's records begin among the 56 of a parity.
fn first_place(choice: u16) -> u16
    requires { choice ≤ 3 }
    ensures { (result ≡ place_of choice 0) × (result ≤ 51) }
{
    if choice == 0 { 0 } else { 36 + 5 * choice }
}

// The look of an even position in any line, once its quantiser is chosen.
fn packed_by(t: Marks, choice: u16, rf: u16, rc: u16, rb: u16) -> u16
    requires { (t ≡ marks_of t.base) × ((choice ≡ choice_of t.base (distance rb rf + distance rc rb)) × (choice ≤ 3)) }
    ensures { result ≡ packed_look (look_by t.base (minus rb rf) (minus rc rb)) }
{
    let used = used_base16(choice, t.base);
    let weight = weight16(choice);
    let raised = weight * raised16(used, t, rb, rf) + raised16(used, t, rc, rb);
    packed(raised, 4 * weight + 4, first_place(choice))
}

fn lossy_packed(t: Marks, b: Bounds, rf: u16, rc: u16, rb: u16) -> u16
    requires { (t ≡ marks_of t.base) × (b ≡ bounds_of t.base) }
    ensures { result ≡ packed_look (look_by t.base (minus rb rf) (minus rc rb)) }
{
    let flatness = rb.abs_diff(rf).min(8) + rc.abs_diff(rb).min(8);
    packed_by(t, choice16(b, flatness), rf, rc, rb)
}

// ---- what the line above gives of odd positions

// 3 times the level of rb - rc by flat quantiser 1 to 3, so raised that 0 is 36, as with the main one.
fn flat_part(choice: u16, rb: u16, rc: u16) -> u16
    requires { 1 ≤ choice }
    ensures { (distance rb rc ≤ 7 → Part 3 (choice - 1) (minus rb rc) result) × (result ≤ 39) }
{
    let size = 3 * u16::from(choice <= rb.abs_diff(rc));
    if rb < rc { 36 - size } else { 36 + size }
}

// ---- odd positions, once the samples beside them are known

// Where the record of a sample is in its set, and a number that is odd where its gradient is negative.
#[derive(Clone, Copy)]
pub struct Aim {
    pub slot: usize,
    pub flip: u32,
}

// The prediction, by what the line above gives.
fn odd_prediction(ra: u32, rg: u32, beyond: u32, halving: u32) -> u32
    requires { (ra < 2 ^ 16) × ((rg < 2 ^ 16) × ((beyond < 2 ^ 16) × (halving < 32))) }
    ensures { result ≡ (ra + rg + 2 * beyond) / 2 ^ halving }
{
    (ra + rg + 2 * beyond) >> halving
}

// The prediction of the sample after place i, in lines that are s apart, by entry h of what is known ahead.
pub fn odd_prediction_at(lines: &[u16], s: usize, i: usize, ahead: &[u16; 432], h: usize) -> u32
    requires h_bound { (h < 48) × ((s ≤ 514) × ((s ≤ i) × (i + 2 < length lines.now))) }
    requires beyond { Beyond (rb_at lines.now s i) (rc_at lines.now s i) (rd_at lines.now s i) (get_or ahead.now (96 + h) 0) (get_or ahead.now (144 + h) 0) }
    ensures { (result ≡ (odd_at lines.now s i).prediction) × (result < 2 ^ 16) }
{
    odd_prediction(
        u32::from(lines[i]),
        u32::from(lines[i + 2]),
        u32::from(ahead[96 + h]),
        u32::from(ahead[144 + h]),
    )
}

// The gradient, by what the line above gives of it, and the difference rc - ra.
fn gradient_with(t: Thresholds, part: u32, rc: u32, ra: u32) -> Signed
    requires { (t.base < 256) × (Serves t (distance rc ra) × (part < 2 ^ 16)) }
    ensures { Continued t.base part (minus rc ra) result × (result.size < 2 ^ 17) }
{
    let v = numbers::difference(rc, ra);
    numbers::difference(part + quantiser::raised_level(t, v), 40)
}

// Where the record of an odd position is in a line that is not lossless.
fn lossy_aim(
    base: u32,
    flatness: &[u32; 27],
    ahead: &[u16; 432],
    h: usize,
    size: u32,
    rc: u32,
    ra: u32,
) -> Aim
    requires base_bound { (base < 256) × ((h < 48) × ((size < 2 ^ 16) × ((rc < 2 ^ 16) × (ra < 2 ^ 16)))) }
    requires by_flatness { ByFlatness base flatness.now }
    ensures { LossyAims base ahead.now h size (minus rc ra) result }
{
    let j = (size + rc.abs_diff(ra)).min(8) as usize;
    let row = flatness[j] as usize;
    let t = quantiser::thresholds_of(base).with_base(flatness[18 + j]);
    let g = gradient_with(t, u32::from(ahead[row + h]), rc, ra);
    Aim {
        slot: (flatness[9 + j] + g.size) as usize,
        flip: u32::from(g.negative),
    }
}

// Where the record of the sample after place i is, by entry h of what is known ahead.
pub fn odd_aim_at(
    lines: &[u16],
    s: usize,
    i: usize,
    base: u32,
    flatness: &[u32; 27],
    ahead: &[u16; 432],
    h: usize,
) -> Aim
    requires h_bound { (h < 48) × ((s ≤ 514) × ((s ≤ i) × (i + 2 < length lines.now))) }
    requires base_bound { (base < 256) × ByFlatness base flatness.now }
    requires upper { Upper base (minus (rb_at lines.now s i) (rc_at lines.now s i)) ahead.now h }
    ensures { AimsAt (look_of base (odd_at lines.now s i)) result }
{
    let ra = u32::from(lines[i]);
    let rc = u32::from(lines[i - s]);
    if base == 0 {
        let g = gradient_with(
            quantiser::thresholds_of(0),
            u32::from(ahead[192 + h]),
            rc,
            ra,
        );
        return Aim {
            slot: g.size as usize + 56,
            flip: u32::from(g.negative),
        };
    }
    lossy_aim(base, flatness, ahead, h, u32::from(ahead[384 + h]), rc, ra)
}

// ---- lists by flatness and by record

// What a flatness decides for an odd position, 8 at most: at j its row of what is known ahead, at 9 + j the first of its quantiser's records, at 18 + j the base.
pub fn by_flatness(base: u32) -> [u32; 27]
    ensures { ByFlatness base result }
{
    let mut r = [0u32; 27];
    for j in 0..9 {
        let choice = code::choice(base, j as u32);
        r[j] = 192 + 48 * choice;
        r[9 + j] = (56 + pass_steps::place_of(choice, 0)) as u32;
        r[18 + j] = pass_steps::used_base(choice, base);
    }
    r
}

// ---- many positions at once

// Every second sample, from place `from` on.
fn take_every_second(lines: &[u16], from: usize, n: usize, out: &mut [u16; 56])
    requires { (n ≤ 56) × ((from + 2 * n ≤ length lines.now + 1) × (length out.old ≡ 56)) }
    ensures { Filled 56 (Second lines.now from) n out.new }
{
    for i in 0..n {
        out[i] = lines[from + 2 * i];
    }
}

// The samples of the line above at odd positions, the guards counted, and at even ones.
fn split(lines: &[u16], from: usize, n: usize, odds: &mut [u16; 56], evens: &mut [u16; 56])
    requires n_bound { (n ≤ 56) × (from + 2 * n ≤ length lines.now) }
    requires odds_len { (length odds.old ≡ 56) × (length evens.old ≡ 56) }
    ensures filled { Filled 56 (Second lines.now from) n odds.new }
    ensures filled_2 { Filled 56 (After lines.now from) n evens.new }
{
    for i in 0..n {
        let j = from + 2 * i;
        odds[i] = lines[j];
        evens[i] = lines[j + 1];
    }
}

// What is known ahead of n turns, in rows of 48 entries: of even positions the predictions (row 0) and the looks (1); of odd ones what the line above gives of
// their predictions (2, 3) and gradients (4).
fn lossless(odds: &[u16; 56], evens: &[u16; 56], tops: &[u16; 56], n: usize, out: &mut [u16; 432])
    requires { (n ≤ 48) × (length out.old ≡ 432) }
    ensures { Rows (AheadRow 0 odds.now evens.now tops.now) 5 n out.new }
{
    let t = marks_of(0);
    for i in 0..n {
        let rf = tops[i];
        let rc = odds[i + 4];
        let rb = evens[i + 4];
        out[i] = even_prediction(rf, rc, rb, odds[i + 5]);
        out[48 + i] = lossless_packed(rf, rc, rb);
        let rc = evens[i];
        let rb = odds[i + 1];
        let e = is_extreme(rb, rc, evens[i + 1]);
        out[96 + i] = numbers::pick(e, rb, 0);
        out[144 + i] = 1 + u16::from(e);
        out[192 + i] = 9 * raised16(0, t, rb, rc);
    }
}

// The same in a line that is not lossless, and of the gradients also what flat quantisers give (5 to 7), and a size (8).
fn lossy(
    odds: &[u16; 56],
    evens: &[u16; 56],
    tops: &[u16; 56],
    n: usize,
    base: u16,
    out: &mut [u16; 432],
)
    requires { (base < 256) × ((n ≤ 48) × (length out.old ≡ 432)) }
    ensures { Rows (AheadRow base odds.now evens.now tops.now) 9 n out.new }
{
    let t = marks_of(base);
    let bounds = bounds_of(base);
    for i in 0..n {
        let rf = tops[i];
        let rc = odds[i + 4];
        let rb = evens[i + 4];
        out[i] = even_prediction(rf, rc, rb, odds[i + 5]);
        out[48 + i] = lossy_packed(t, bounds, rf, rc, rb);
        let rc = evens[i];
        let rb = odds[i + 1];
        let e = is_extreme(rb, rc, evens[i + 1]);
        out[96 + i] = numbers::pick(e, rb, 0);
        out[144 + i] = 1 + u16::from(e);
        out[192 + i] = 9 * raised16(base, t, rb, rc);
        out[240 + i] = flat_part(1, rb, rc);
        out[288 + i] = flat_part(2, rb, rc);
        out[336 + i] = flat_part(3, rb, rc);
        out[384 + i] = rb.abs_diff(rc).min(8);
    }
}

// What is known ahead of n turns of a pass in a line, from position c on.
pub fn fill(
    lines: &[u16],
    w: usize,
    line: usize,
    c: usize,
    n: usize,
    base: u32,
    out: &mut [u16; 432],
)
    requires le_w { (8 ≤ w) × ((w ≤ 512) × ((2 ≤ line) × ((line ≤ 17) × ((n ≤ 48) × ((c + 2 * n ≤ w + 8) × (base < 256)))))) }
    requires w_in_bounds { (line + 1) * (w + 2) ≤ length lines.now }
    requires out_len { length out.old ≡ 432 }
    ensures out_len_2 { length out.new ≡ 432 }
    ensures ahead { Ahead base w lines.now line c n out.new }
{
    let s = w + 2;
    let from = line * s + c - s;
    let mut odds = [0u16; 56];
    let mut evens = [0u16; 56];
    let mut tops = [0u16; 56];
    split(lines, from - 8, n + 5, &mut odds, &mut evens);
    take_every_second(lines, from + 1 - s, n, &mut tops);
    if base == 0 {
        lossless(&odds, &evens, &tops, n, out);
    } else {
        lossy(&odds, &evens, &tops, n, base as u16, out);
    }
}
