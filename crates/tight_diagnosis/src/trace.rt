// A second walk over a block that is not tight, one sample at a time. It stops at the first bad code and says where it stands and why it is bad. Only
// lossless blocks are walked: base 0, no restarts after the first line.
ghost use Rattle.std.specs.Prelude.{◌≡◌, true, [], ◌∷◌, ◌+◌, ◌*◌, ◌/◌, ◌^◌, ◌≤◌, ◌<◌, length, get_or, set};
ghost use Rattle.statistics.specs.Statistics.{updated};
ghost use Rattle.statistics.specs.Inside.{InRange};
ghost use Rattle.code.specs.Samples.{residual_of};
ghost use Rattle.colour_lines.specs.ColourLines.{zero_lines};
ghost use Rattle.image_map.specs.Places.{width_of};
ghost use Rattle.pass_schedule.specs.Steps.{pass_steps};
ghost use Rattle.pass_steps.specs.Contexts.{no_record};
ghost use Rattle.pass_steps.specs.Values.{zip_records, SetInRange};
ghost use Rattle.pass_steps.specs.Contexts.{Depth};
ghost use Rattle.read_block.specs.Records.{start_records};
ghost use Rattle.tight_diagnosis.specs.Due.{even_due, odd_due, due_at};
ghost use Rattle.tight_diagnosis.specs.Ways.{step_of, steps_way, line_way, block_way};
ghost use Rattle.tight_diagnosis.specs.Traces.{clean, Inside, StageAsks, PassAsks, Gives, clean_state, LineAsks, LineGives, Ends};

use bits::{BitPosition, is_past};
use code::{BadSpot, Reason};
use image_map::width;
use pass_schedule::{Plan, Rule};
use quantiser::Quantiser;
use read_block::Form;
use statistics::Record;

// Why a walk stops: a bad code; or no one bit was left before there was a bad code. A walk that does not stop says up to which bit all codes were tight.
#[derive(Clone, Copy)]
pub enum Stop {
    Bad(BadSpot),
    CutOff,
}

// One sample: its colour line, its position, and whether it has a code.
#[derive(Clone, Copy)]
pub struct Sample {
    pub line: usize,
    pub position: usize,
    pub coded: bool,
}

// Which pass of which line is walked, 0 to 5, in colour lines of w samples.
#[derive(Clone, Copy)]
pub struct Stage {
    pub line: usize,
    pub pass: usize,
    pub bits: u32,
    pub w: usize,
    pub q: Quantiser,
}

// ---- one sample

// The record at a place of a set. `pass_steps::record_at` takes arrays; here a set is a part of the 336 records.
fn record_in(sums: &[u32], ns: &[u32], slot: usize) -> Record
    requires slot_bound { (slot < 112) × ((length sums.now ≡ 112) × (length ns.now ≡ 112)) }
    requires set_in_range { SetInRange (zip_records sums.now ns.now) }
    ensures { (result ≡ get_or (zip_records sums.now ns.now) slot no_record) × InRange result }
{
    Record {
        sum: sums[slot],
        n: ns[slot],
    }
}

// The record that was there is updated by its code.
fn update_in(sums: &mut [u32], ns: &mut [u32], slot: usize, old: Record, code: u32)
    requires code_bound { (code < 63 * 2 ^ 15) × ((slot < 112) × InRange old) }
    requires sums_len { (length sums.old ≡ 112) × (length ns.old ≡ 112) }
    requires set_in_range { SetInRange (zip_records sums.old ns.old) }
    ensures ns_after { zip_records sums.new ns.new
        ≡ set (zip_records sums.old ns.old) slot (updated old (residual_of code).size) }
    ensures set_in_range_2 { SetInRange (zip_records sums.new ns.new) }
{
    let new = old.update(code::residual_size(code));
    sums[slot] = new.sum;
    ns[slot] = new.n;
}

fn bad_spot(stage: Stage, x: Sample, at: BitPosition, reason: Reason) -> BadSpot
    requires { stage.pass ≤ 5 }
    ensures { result ≡ record { line = stage.line; pass = stage.pass + 1; colour = x.line; position = x.position; at = at; reason = reason } }
{
    BadSpot {
        line: stage.line,
        pass: stage.pass + 1,
        colour: x.line,
        position: x.position,
        at,
        reason,
    }
}

// One sample is read: where the reading is after it, unless it stops here.
fn trace_step(
    block: &[u8],
    from: BitPosition,
    lines: &mut [u16],
    sums: &mut [u32],
    ns: &mut [u32],
    stage: Stage,
    x: Sample,
) -> Result<BitPosition, Stop>
    requires { StageAsks stage block.now lines.old sums.old ns.old × Inside stage x }
    ensures { let before = clean lines.old sums.old ns.old from in
        Gives (steps_way stage block.now (step_of x ∷ []) before) lines.new sums.new ns.new result }
{
    let w = stage.w;
    let p = x.position;
    let q = stage.q;
    let m = quantiser::largest(stage.bits);
    let i = pass_steps::left_of(w, x.line, p);
    let here = pass_steps::context_at(lines, w + 2, i, p);
    if !x.coded {
        lines[i + 1] = here.prediction as u16;
        return Ok(from);
    }
    let h = pass_steps::look_of(0, here);
    let j = pass_steps::slot_of(p, h.place);
    let old = record_in(sums, ns, j);
    let k = old.k();
    let Some(c) = code_reader::read_code(block, from, k, q.limit, q.raw) else {
        return Err(Stop::CutOff);
    };
    match code::reason_of(m, k, q.limit, c) {
        Some(reason) => Err(Stop::Bad(bad_spot(stage, x, from, reason))),
        None => {
            lines[i + 1] = code::sample(
                m,
                h.base,
                q.total,
                h.negative,
                here.prediction,
                c.value,
            ) as u16;
            update_in(sums, ns, j, old, c.value);
            Ok(c.after)
        }
    }
}

// ---- the samples of a pass

// At an even position p, if it is one of the line.
fn even_due(w: usize, line: usize, rule: Rule, p: usize) -> Option<Sample>
    ensures { result ≡ even_due w line rule p }
{
    if w <= p {
        return None;
    }
    Some(Sample {
        line,
        position: p,
        coded: pass_schedule::has_code(rule, p),
    })
}

// At the odd position seven before p, once positions 0 to 8 are done.
fn odd_due(line: usize, p: usize) -> Option<Sample>
    ensures { result ≡ odd_due line p }
{
    if p < 8 {
        return None;
    }
    Some(Sample {
        line,
        position: p - 7,
        coded: true,
    })
}

// Number u of a pass, which has four in each turn: one loop over them takes a function, where a turn, its two positions and a pair of samples took four.
fn due_at(w: usize, plan: Plan, u: usize) -> Option<Sample>
    ensures { result ≡ due_at w plan u }
{
    let p = 2 * (u / 4);
    let k = u % 4;
    if k == 0 {
        return even_due(w, plan.first, plan.first_rule, p);
    }
    if k == 1 {
        return even_due(w, plan.second, plan.second_rule, p);
    }
    if k == 2 {
        return odd_due(plan.first, p);
    }
    odd_due(plan.second, p)
}

// A pass, on the records of its set.
fn trace_pass(
    block: &[u8],
    from: BitPosition,
    lines: &mut [u16],
    sums: &mut [u32],
    ns: &mut [u32],
    stage: Stage,
    plan: Plan,
) -> Result<BitPosition, Stop>
    requires { PassAsks stage plan block.now lines.old sums.old ns.old }
    ensures { let before = clean lines.old sums.old ns.old from in
        Gives (steps_way stage block.now (pass_steps stage.w plan) before) lines.new sums.new ns.new result }
{
    let w = stage.w;
    let end = 4 * (w / 2 + 4);
    let mut at = from;
    for u in 0..end {
        let Some(x) = due_at(w, plan, u) else {
            continue;
        };
        at = trace_step(block, at, lines, sums, ns, stage, x)?;
    }
    Ok(at)
}

// ---- lines

// Line n: six passes, each on the records of its set.
fn trace_line(
    block: &[u8],
    from: BitPosition,
    lines: &mut [u16],
    sums: &mut [u32],
    ns: &mut [u32],
    form: Form,
    q: Quantiser,
    n: usize,
) -> Result<BitPosition, Stop>
    requires { LineAsks form q block.now lines.old sums.old ns.old }
    ensures { let before = clean_state lines.old sums.old ns.old from in
        LineGives (line_way form block.now n before) lines.new sums.new ns.new result }
{
    let bits = form.bits;
    let xtrans = form.xtrans;
    let w = width(xtrans);
    let mut at = from;
    for i in 0..6 {
        let p = pass_schedule::plan_at(i, xtrans);
        colour_lines::set_guards(lines, w, p.first);
        colour_lines::set_guards(lines, w, p.second);
        let stage = Stage {
            line: n,
            pass: i,
            bits,
            w,
            q,
        };
        let start = 112 * p.set;
        let end = start + 112;
        at = trace_pass(
            block,
            at,
            lines,
            &mut sums[start..end],
            &mut ns[start..end],
            stage,
            p,
        )?;
    }
    if is_past(block, at) {
        return Err(Stop::CutOff);
    }
    Ok(at)
}

// What the records start with.
fn start(sums: &mut [u32], ns: &mut [u32], bits: u32)
    requires { Depth bits × ((length sums.old ≡ 336) × (length ns.old ≡ 336)) }
    ensures { zip_records sums.new ns.new ≡ start_records bits 0 }
{
    for j in 0..336 {
        let r = read_block::start_record(bits, 0, j);
        sums[j] = r.sum;
        ns[j] = r.n;
    }
}

// The first `count` lines.
fn trace_lines(
    block: &[u8],
    lines: &mut [u16],
    sums: &mut [u32],
    ns: &mut [u32],
    form: Form,
    count: usize,
) -> Result<BitPosition, Stop>
    requires block_len_bound { (length block.now < 2 ^ 32) × (Depth form.bits × (count < 2 ^ 16)) }
    requires lines_value { (lines.old ≡ zero_lines (width_of form.xtrans)) × ((length sums.old ≡ 336) × (length ns.old ≡ 336)) }
    ensures { Ends (block_way form block.now count) result }
{
    let bits = form.bits;
    let w = width(form.xtrans);
    start(sums, ns, bits);
    let q = Quantiser::main(bits, 0);
    let mut at = BitPosition(0);
    for n in 0..count {
        colour_lines::turn(lines, w);
        at = trace_line(block, at, lines, sums, ns, form, q, n)?;
    }
    Ok(at)
}

// The walk over the first `count` lines of a lossless block, from its first bit on.
pub fn trace_block(block: &[u8], form: Form, count: usize) -> Result<BitPosition, Stop>
    requires { (length block.now < 2 ^ 32) × (Depth form.bits × (count < 2 ^ 16)) }
    ensures { Ends (block_way form block.now count) result }
{
    let mut lines = [0u16; 9252];
    let mut sums = [0u32; 336];
    let mut ns = [0u32; 336];
    let used = admission::samples_needed(form.xtrans);
    trace_lines(block, &mut lines[0..used], &mut sums, &mut ns, form, count)
}
