// Document 01, Tight block, and Item 5: one pass of writing. The samples of a set become codes, which are counted or stored. A lossless
// line has base 0.
#![tactic(auto)]

ghost use Rattle.std.specs.Prelude.{◌≡◌, ◌+◌, ◌*◌, ◌^◌, ◌≤◌, ◌<◌, length, not, ◌&&◌, eqb};
ghost use Rattle.quantiser.specs.Quantisers.{largest, total_of};
ghost use Rattle.code.specs.Samples.{sample_of};
ghost use Rattle.code.specs.Inside.{steps_up, residual_up, code_for};
ghost use Rattle.code.specs.Wanted.{code_of_residual};
ghost use Rattle.code.specs.Tight.{code_bits};
ghost use Rattle.code.specs.Inside.{code_length};
ghost use Rattle.code.specs.Nearest.{code_near};
ghost use Rattle.pass_schedule.specs.Steps.{even_part, odd_part};
ghost use Rattle.pass_steps.specs.Values.{zip_records, SetInRange, AreKs};
ghost use Rattle.pass_steps.specs.Contexts.{Depth};
ghost use Rattle.colour_lines.specs.Sets.{rank_of, index_in, line_size};
ghost use Rattle.write_pass.specs.Writings.{write_pass};
ghost use Rattle.write_pass.specs.Puts.{code_number, put_if, Room, CodingAsks, CodedAs, StepsAsk, StepsPut, begun_writing, WriteAsks, WriteGives};

use bits::BitPosition;
use pass_schedule::Plan;
use pass_steps::{Quantisers, Set, Spot};
use prediction::Context;

mod looking;

pub use looking::look_pass;

// What a pass of writing hands back: the position after it, and its set.
#[derive(Clone, Copy)]
pub struct Written {
    pub at: BitPosition,
    pub set: Set,
}

// ---- codes

// How far it is from u up to v, where 0 follows m.
fn steps_up(m: u32, u: u32, v: u32) -> u32
    requires { (m < 2 ^ 16) × ((u ≤ m) × (v ≤ m)) }
    ensures { (result ≡ steps_up m u v) × (result ≤ m) }
{
    if u <= v { v - u } else { v + m + 1 - u }
}

// The code of the residual that leads so far up.
fn code_of_steps(m: u32, d: u32) -> u32
    requires { (m < 2 ^ 16) × (d ≤ m) }
    ensures { (result ≡ code_of_residual (residual_up m d)) × (result ≤ m) }
{
    if 2 * d <= m {
        2 * d
    } else {
        2 * (m + 1 - d) - 1
    }
}

// The code below 2^bits of a wanted sample.
fn code_for(m: u32, negative: bool, prediction: u32, v: u32) -> u32
    requires { (m < 2 ^ 16) × ((prediction ≤ m) × (v ≤ m)) }
    ensures { (result ≡ code_for m negative prediction v) × (result ≤ m) }
{
    if negative {
        return code_of_steps(m, steps_up(m, v, prediction));
    }
    code_of_steps(m, steps_up(m, prediction, v))
}

// How many bits its tight code has.
fn code_length(k: u32, limit: u32, raw: u32, code: u32) -> u32
    requires { (k ≤ 15) × ((limit + raw < 64) × (code ≤ 2 ^ raw)) }
    ensures { (result ≡ code_length k limit raw code) × ((1 ≤ result) × (result ≤ 64)) }
{
    let zeros = code >> k;
    if zeros < limit {
        zeros + 1 + k
    } else {
        limit + 1 + raw
    }
}

// These bits as one number, with zeros before it.
fn code_number(k: u32, limit: u32, raw: u32, code: u32) -> u64
    requires { (k ≤ 15) × ((1 ≤ limit) × ((raw ≤ 16) × (code < 2 ^ 16))) }
    ensures { (result ≡ code_number k limit raw code) × (result < 2 ^ 32) }
{
    if code >> k < limit {
        return numbers::power(k) + (code as u64) % numbers::power(k);
    }
    numbers::power(raw) + (code as u64) - 1
}

// The tight code, stored or only counted, and the position after it.
fn put_code(
    out: &mut [u8],
    store: bool,
    at: BitPosition,
    k: u32,
    limit: u32,
    raw: u32,
    code: u32,
) -> BitPosition
    requires k_bound { (k ≤ 15) × ((1 ≤ limit) × ((limit + raw < 64) × ((raw ≤ 16) × ((code < 2 ^ 16) × (code ≤ 2 ^ raw))))) }
    requires at_bound { (at.0 < 2 ^ 60) × Room store out.old at.0 (code_bits k limit raw code) }
    ensures result_value { result.0 ≡ at.0 + length (code_bits k limit raw code) }
    ensures out_after { out.new ≡ put_if store out.old at.0 (code_bits k limit raw code) }
{
    let n = code_length(k, limit, raw, code);
    let after = BitPosition(at.0 + n as u64);
    if store {
        bit_output::put_bits(out, at, n, code_number(k, limit, raw, code));
        return after;
    }
    after
}

// ---- one sample

fn rank_of(line: usize) -> usize
    requires { (2 ≤ line) × (line ≤ 17) }
    ensures { (result ≡ rank_of line) × (result ≤ 11) }
{
    if line < 5 {
        return line - 2;
    }
    if line < 13 {
        return line - 4;
    }
    line - 6
}

// The index in the set of position p of a colour line, in line n.
fn index_in(w: usize, n: usize, line: usize, p: usize) -> usize
    requires { (w ≤ 512) × ((p < w) × ((n < 2 ^ 16) × ((2 ≤ line) × (line ≤ 17)))) }
    ensures { (result ≡ index_in w n line p) × (result < (n + 1) * line_size w) }
{
    n * (12 * w) + rank_of(line) * w + p
}

// A code that was chosen for a wanted sample, and the sample that it gives.
#[derive(Clone, Copy)]
struct Chosen {
    code: u32,
    value: u32,
}

// The code of the sample nearest to v, and that sample, by a quantiser with that base. With base 0, which comes first, it is v itself.
fn choose_code(bits: u32, base: u32, total: u32, negative: bool, prediction: u32, v: u32) -> Chosen
    requires depth { Depth bits × ((base < 256) × (total ≡ total_of bits base)) }
    requires prediction_bound { (prediction ≤ largest bits) × (v ≤ largest bits) }
    ensures code_value { (result.code ≡ code_near base total negative prediction v) × (result.code < total) }
    ensures value_value { (result.value ≡ sample_of (largest bits) base total negative prediction result.code) × (result.value ≤ largest bits) }
{
    let m = quantiser::largest(bits);
    if base == 0 {
        return Chosen {
            code: code_for(m, negative, prediction, v),
            value: v,
        };
    }
    let code = code::code_near(base, total, negative, prediction, v);
    Chosen {
        code,
        value: code::sample(m, base, total, negative, prediction, code),
    }
}

// How a sample with a code is put: the place of its record in the set, the quantiser, the code, and the sample as it reads back.
#[derive(Clone, Copy)]
struct Coding {
    slot: usize,
    choice: usize,
    code: u32,
    value: u32,
}

// This for a wanted sample v, at position p in the context x of a line with that base.
fn lossy_as(bits: u32, base: u32, totals: &[u32; 4], p: usize, x: Context, v: u32) -> Coding
    requires { CodingAsks bits base totals.now x v }
    ensures { CodedAs bits base p x v result }
{
    let h = pass_steps::look_of(base, x);
    let choice = h.choice;
    let c = choose_code(bits, h.base, totals[choice], h.negative, x.prediction, v);
    Coding {
        slot: pass_steps::slot_of(p, h.place),
        choice,
        code: c.code,
        value: c.value,
    }
}

// The same for any base. A lossless line, with base 0, comes first.
// INLINING: the other way has two calls that differ in an operand. With one LLVM inlines `lossy_as` here, and this is then too large for the loop.
fn coded_as(bits: u32, base: u32, totals: &[u32; 4], p: usize, x: Context, v: u32) -> Coding
    requires { CodingAsks bits base totals.now x v }
    ensures { CodedAs bits base p x v result }
{
    if base == 0 {
        let h = pass_steps::look_of(0, x);
        return Coding {
            slot: pass_steps::slot_of(p, h.place),
            choice: h.choice,
            code: code_for(quantiser::largest(bits), h.negative, x.prediction, v),
            value: v,
        };
    }
    if base == 1 {
        return lossy_as(bits, 1, totals, p, x, v);
    }
    lossy_as(bits, base, totals, p, x, v)
}

// Whether an interpolated sample is refused: it is not its prediction, where it must be.
fn is_wrong(strict: bool, v: u32, prediction: u32) -> bool
    ensures { result ≡ (strict && not (eqb v prediction)) }
{
    if strict {
        return v != prediction;
    }
    false
}

// The two samples at the even position p, where it is one of the line. As in reading, the leaves are called here, and this from one place only: so
// all of it is taken into the loop.
fn write_even(
    samples: &[u16],
    n: usize,
    out: &mut [u8],
    store: bool,
    from: BitPosition,
    lines: &mut [u16],
    sums: &mut [u32; 112],
    ns: &mut [u32; 112],
    ks: &mut [u32; 112],
    spot: Spot,
    strict: bool,
    base: u32,
    totals: &[u32; 4],
    raws: &[u32; 4],
    limits: &[u32; 4],
) -> Result<BitPosition, usize>
    requires steps_ask { StepsAsk spot base strict totals.now raws.now limits.now samples.now n (even_part spot.w spot.plan spot.p) store from
        lines.old sums.old ns.old out.old }
    requires are_ks { AreKs (zip_records sums.old ns.old) ks.old }
    ensures steps_put { StepsPut spot.bits base spot.w strict samples.now n (even_part spot.w spot.plan spot.p) store from.0
        lines.old sums.old ns.old out.old
        lines.new sums.new ns.new out.new result }
    ensures set_in_range { SetInRange (zip_records sums.new ns.new) }
    ensures are_ks_2 { AreKs (zip_records sums.new ns.new) ks.new }
{
    let w = spot.w;
    let p = spot.p;
    if p >= w {
        return Ok(from);
    }
    let plan = spot.plan;
    let mut at = from;
    let i = pass_steps::left_of(w, plan.first, p);
    let j = index_in(w, n, plan.first, p);
    let x = pass_steps::context_at(lines, w + 2, i, p);
    let v = u32::from(samples[j]);
    if pass_schedule::has_code(plan.first_rule, p) {
        let c = coded_as(spot.bits, base, totals, p, x, v);
        lines[i + 1] = c.value as u16;
        let choice = c.choice;
        let old = pass_steps::record_at(sums, ns, c.slot);
        at = put_code(
            out,
            store,
            at,
            pass_steps::k_at(ks, c.slot),
            limits[choice],
            raws[choice],
            c.code,
        );
        pass_steps::update_with_k(sums, ns, ks, c.slot, old, c.code);
    } else {
        if is_wrong(strict, v, x.prediction) {
            return Err(j);
        }
        lines[i + 1] = x.prediction as u16;
    }
    let i = pass_steps::left_of(w, plan.second, p);
    let j = index_in(w, n, plan.second, p);
    let x = pass_steps::context_at(lines, w + 2, i, p);
    let v = u32::from(samples[j]);
    if pass_schedule::has_code(plan.second_rule, p) {
        let c = coded_as(spot.bits, base, totals, p, x, v);
        lines[i + 1] = c.value as u16;
        let choice = c.choice;
        let old = pass_steps::record_at(sums, ns, c.slot);
        at = put_code(
            out,
            store,
            at,
            pass_steps::k_at(ks, c.slot),
            limits[choice],
            raws[choice],
            c.code,
        );
        pass_steps::update_with_k(sums, ns, ks, c.slot, old, c.code);
    } else {
        if is_wrong(strict, v, x.prediction) {
            return Err(j);
        }
        lines[i + 1] = x.prediction as u16;
    }
    Ok(at)
}

// The two samples at the odd position p - 7, once positions 0 to 8 are done.
fn write_odd(
    samples: &[u16],
    n: usize,
    out: &mut [u8],
    store: bool,
    from: BitPosition,
    lines: &mut [u16],
    sums: &mut [u32; 112],
    ns: &mut [u32; 112],
    ks: &mut [u32; 112],
    spot: Spot,
    strict: bool,
    base: u32,
    totals: &[u32; 4],
    raws: &[u32; 4],
    limits: &[u32; 4],
) -> Result<BitPosition, usize>
    requires steps_ask { StepsAsk spot base strict totals.now raws.now limits.now samples.now n (odd_part spot.plan spot.p) store from
        lines.old sums.old ns.old out.old }
    requires p_bound { spot.p < spot.w + 7 }
    requires are_ks { AreKs (zip_records sums.old ns.old) ks.old }
    ensures steps_put { StepsPut spot.bits base spot.w strict samples.now n (odd_part spot.plan spot.p) store from.0
        lines.old sums.old ns.old out.old
        lines.new sums.new ns.new out.new result }
    ensures set_in_range { SetInRange (zip_records sums.new ns.new) }
    ensures are_ks_2 { AreKs (zip_records sums.new ns.new) ks.new }
{
    let w = spot.w;
    let p = spot.p;
    if p < 8 {
        return Ok(from);
    }
    let q = p - 7;
    let plan = spot.plan;
    let i = pass_steps::left_of(w, plan.first, q);
    let j = index_in(w, n, plan.first, q);
    let x = pass_steps::context_at(lines, w + 2, i, q);
    let v = u32::from(samples[j]);
    let c = coded_as(spot.bits, base, totals, q, x, v);
    lines[i + 1] = c.value as u16;
    let choice = c.choice;
    let old = pass_steps::record_at(sums, ns, c.slot);
    let at = put_code(
        out,
        store,
        from,
        pass_steps::k_at(ks, c.slot),
        limits[choice],
        raws[choice],
        c.code,
    );
    pass_steps::update_with_k(sums, ns, ks, c.slot, old, c.code);
    let i = pass_steps::left_of(w, plan.second, q);
    let j = index_in(w, n, plan.second, q);
    let x = pass_steps::context_at(lines, w + 2, i, q);
    let v = u32::from(samples[j]);
    let c = coded_as(spot.bits, base, totals, q, x, v);
    lines[i + 1] = c.value as u16;
    let choice = c.choice;
    let old = pass_steps::record_at(sums, ns, c.slot);
    let after = put_code(
        out,
        store,
        at,
        pass_steps::k_at(ks, c.slot),
        limits[choice],
        raws[choice],
        c.code,
    );
    pass_steps::update_with_k(sums, ns, ks, c.slot, old, c.code);
    Ok(after)
}

// A pass, with the turns of reading: the even position p, and then the odd one at p - 7. The error is the index in the set of an interpolated sample
// that is not its prediction.
pub fn write_pass(
    samples: &[u16],
    n: usize,
    out: &mut [u8],
    store: bool,
    from: BitPosition,
    lines: &mut [u16],
    set: Set,
    w: usize,
    plan: Plan,
    qs: Quantisers,
    bits: u32,
    strict: bool,
) -> Result<Written, usize>
    requires { WriteAsks bits w plan qs strict samples.now n store from lines.old set out.old }
    ensures { WriteGives (write_pass bits qs.base w strict samples.now n plan (begun_writing lines.old set)) store from
        out.old lines.new out.new result }
{
    let totals = qs.totals;
    let raws = qs.raws;
    let limits = qs.limits;
    let base = qs.base;
    let mut sums = set.sums;
    let mut ns = set.ns;
    let mut ks = pass_steps::ks_of(&sums, &ns);
    let mut at = from;
    // Not `step_by(2)`, as in `look_pass`.
    let mut p = 0;
    while p < w + 8 {
        let between = write_even(
            samples,
            n,
            out,
            store,
            at,
            lines,
            &mut sums,
            &mut ns,
            &mut ks,
            Spot { w, bits, plan, p },
            strict,
            base,
            &totals,
            &raws,
            &limits,
        )?;
        at = write_odd(
            samples,
            n,
            out,
            store,
            between,
            lines,
            &mut sums,
            &mut ns,
            &mut ks,
            Spot { w, bits, plan, p },
            strict,
            base,
            &totals,
            &raws,
            &limits,
        )?;
        p += 2;
    }
    Ok(Written {
        at,
        set: Set { sums, ns },
    })
}
