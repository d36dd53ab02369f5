// Looking at a lossless set before it is written: whether its interpolated samples are their predictions. Nothing is coded; each sample goes into the colour
// lines as it is, since that is how it will read back.
ghost use Rattle.std.specs.Prelude.{◌≡◌, true, false, [], ◌∷◌, ◌+◌, ◌*◌, ◌^◌, ◌≤◌, ◌<◌, length};
ghost use Rattle.pass_schedule.specs.Steps.{step_at, even_part, odd_part, pass_steps};
ghost use Rattle.colour_lines.specs.Sets.{line_size};
ghost use Rattle.write_pass.specs.Looks.{SampleLooked, LookAsks, Right, PassLookAsks};

use crate::index_in;
use pass_schedule::Plan;
use pass_steps::Spot;

// One sample: with a code it is right.
fn look_at(
    samples: &[u16],
    n: usize,
    lines: &mut [u16],
    w: usize,
    line: usize,
    p: usize,
    coded: bool,
) -> bool
    requires w_bound { (w ≤ 512) × ((p < w) × ((n < 2 ^ 16) × ((2 ≤ line) × (line ≤ 17)))) }
    requires w_in_bounds { ((n + 1) * line_size w ≤ length samples.now) × (18 * (w + 2) ≤ length lines.old) }
    ensures { result ≡ true → SampleLooked w samples.now n (step_at line p coded) lines.old lines.new }
{
    let i = pass_steps::left_of(w, line, p);
    let j = index_in(w, n, line, p);
    let v = samples[j];
    if !coded {
        let x = pass_steps::context_at(lines, w + 2, i, p);
        if u32::from(v) != x.prediction {
            return false;
        }
    }
    lines[i + 1] = v;
    true
}

// The two samples at position p.
fn look_two(
    samples: &[u16],
    n: usize,
    lines: &mut [u16],
    spot: Spot,
    first: bool,
    second: bool,
) -> bool
    requires look_asks { LookAsks spot samples.now n
        (step_at spot.plan.first spot.p first ∷ step_at spot.plan.second spot.p second ∷ []) lines.old }
    requires p_lt_w { spot.p < spot.w }
    ensures { result ≡ true → Right spot.bits spot.w samples.now n
        (step_at spot.plan.first spot.p first ∷ step_at spot.plan.second spot.p second ∷ []) lines.old lines.new }
{
    let plan = spot.plan;
    if !look_at(samples, n, lines, spot.w, plan.first, spot.p, first) {
        return false;
    }
    look_at(samples, n, lines, spot.w, plan.second, spot.p, second)
}

// At the even position p, where it is one of the line.
fn look_even(samples: &[u16], n: usize, lines: &mut [u16], spot: Spot) -> bool
    requires { LookAsks spot samples.now n (even_part spot.w spot.plan spot.p) lines.old }
    ensures { result ≡ true → Right spot.bits spot.w samples.now n (even_part spot.w spot.plan spot.p)
        lines.old lines.new }
{
    let p = spot.p;
    if p >= spot.w {
        return true;
    }
    let plan = spot.plan;
    look_two(
        samples,
        n,
        lines,
        spot,
        pass_schedule::has_code(plan.first_rule, p),
        pass_schedule::has_code(plan.second_rule, p),
    )
}

// At the odd position p - 7, once positions 0 to 8 are done.
fn look_odd(samples: &[u16], n: usize, lines: &mut [u16], spot: Spot) -> bool
    requires look_asks { LookAsks spot samples.now n (odd_part spot.plan spot.p) lines.old }
    requires p_bound { spot.p < spot.w + 7 }
    ensures { result ≡ true → Right spot.bits spot.w samples.now n (odd_part spot.plan spot.p)
        lines.old lines.new }
{
    let p = spot.p;
    if p < 8 {
        return true;
    }
    let plan = spot.plan;
    look_two(
        samples,
        n,
        lines,
        Spot {
            w: spot.w,
            bits: spot.bits,
            plan,
            p: p - 7,
        },
        true,
        true,
    )
}

// A pass, with the turns of writing.
pub fn look_pass(
    samples: &[u16],
    n: usize,
    lines: &mut [u16],
    w: usize,
    plan: Plan,
    bits: u32,
) -> bool
    requires { PassLookAsks bits w plan samples.now n lines.old }
    ensures { result ≡ true → Right bits w samples.now n (pass_steps w plan) lines.old lines.new }
{
    // Not `(0..w + 8).step_by(2)`: tried, and the proof does not close, since such a loop ends within its last turn and not at the invariant.
    let mut p = 0;
    while p < w + 8 {
        if !look_even(samples, n, lines, Spot { w, bits, plan, p }) {
            return false;
        }
        if !look_odd(samples, n, lines, Spot { w, bits, plan, p }) {
            return false;
        }
        p += 2;
    }
    true
}
