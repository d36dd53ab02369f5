// Document 01, Pass and line: one pass over two colour lines, the hot loop of reading. The set of statistics is passed and returned by
// value; the colour lines are lent. What can be known of samples before their codes are read is made ahead, for 48 turns at a time
// (`pass_ahead`).
#![tactic(auto)]

ghost use Rattle.std.specs.Prelude.{◌≡◌};
ghost use Rattle.pass_schedule.specs.Steps.{even_steps, odd_steps};
ghost use Rattle.pass_schedule.specs.Inside.{evens_of};
ghost use Rattle.pass_ahead.specs.Odds.{ByFlatness};
ghost use Rattle.pass_ahead.specs.Arrays.{Ahead};
ghost use Rattle.read_pass.specs.Windows.{window_line, window_plan};
ghost use Rattle.read_pass.specs.Pairs.{PairAsks, BothEven, BothOdd, PairGives, ChunkAsks, chunk_steps, PassAsks, PassGives, held, begun};

use code::Place;
use pass_schedule::{EvenCodes, Plan};
use pass_steps::{Quantisers, Set, Spot};

mod one_sample;

// A position of a pass in lines with that base, and its entry in what is known ahead.
#[derive(Clone, Copy)]
pub struct Turn {
    pub spot: Spot,
    pub base: u32,
    pub entry: usize,
}

// What a pass hands back: where the reading is after it, and its set.
#[derive(Clone, Copy)]
pub struct Passed {
    pub place: Place,
    pub set: Set,
}

// Where a colour line is read, where of each colour only the last three are kept.
fn window_line(l: usize) -> usize
    ensures { result ≡ window_line l }
{
    if l < 5 {
        return 2;
    }
    if l < 13 {
        return 5;
    }
    8
}

// The lines that a pass goes over: those of its plan, or those of the windows.
pub fn window_plan(p: Plan, windowed: bool) -> Plan
    ensures { result ≡ window_plan windowed p }
{
    if windowed {
        return Plan {
            first: window_line(p.first),
            second: window_line(p.second),
            ..p
        };
    }
    p
}

// ---- the two samples of a position. What a pass holds is lent array by array: a struct by value would be copied at each position.

// The two samples at an even position p. It is called from one place only, and so it is taken into the loop.
fn even_pair(
    block: &[u8],
    from: Place,
    lines: &mut [u16],
    sums: &mut [u32; 112],
    ns: &mut [u32; 112],
    ks: &mut [u32; 112],
    turn: Turn,
    steps: &[u16; 112],
    limits: &[u16; 112],
    totals: &[u32; 4],
    next: &[u8; 65],
    digits: &[u8; 65],
    first: &[u16; 432],
    second: &[u16; 432],
    first_codes: &EvenCodes,
    second_codes: &EvenCodes,
) -> Option<Place>
    requires pair_asks { PairAsks turn.spot turn.base from block.now lines.old sums.old ns.old ks.old
        steps.now limits.now totals.now next.now digits.now }
    requires both_even { BothEven turn lines.old first.now second.now }
    requires coded { (first_codes.now.0 ≡ evens_of turn.spot.plan.first_rule)
        × (second_codes.now.0 ≡ evens_of turn.spot.plan.second_rule) }
    ensures { PairGives turn.spot turn.base block.now (even_steps turn.spot.plan turn.spot.p)
        (held lines.old sums.old ns.old from)
        lines.new sums.new ns.new ks.new result }
{
    // By its parts, not as a whole: with the padding of a `Place` LLVM would keep it in memory, and copy it at each sample.
    let mut place = Place {
        at: from.at,
        tight: from.tight,
        long: from.long,
    };
    let spot = turn.spot;
    let h = turn.entry;
    let i = pass_steps::left_of(spot.w, spot.plan.first, spot.p);
    if first_codes.at(spot.p) {
        let c = one_sample::even_coding(first, h, i, spot.bits, limits, ks);
        let (code, after) = one_sample::taken(block, place, c, spot.bits)?;
        one_sample::put_sample(lines, c, steps, totals, code);
        pass_ahead::update_by(sums, ns, ks, next, digits, c.slot, code);
        place = after;
    } else {
        lines[i + 1] = first[h];
    }
    let j = pass_steps::left_of(spot.w, spot.plan.second, spot.p);
    if second_codes.at(spot.p) {
        let c = one_sample::even_coding(second, h, j, spot.bits, limits, ks);
        let (code, after) = one_sample::taken(block, place, c, spot.bits)?;
        one_sample::put_sample(lines, c, steps, totals, code);
        pass_ahead::update_by(sums, ns, ks, next, digits, c.slot, code);
        return Some(after);
    }
    lines[j + 1] = second[h];
    Some(place)
}

// The two samples at an odd position p.
fn odd_pair(
    block: &[u8],
    from: Place,
    lines: &mut [u16],
    sums: &mut [u32; 112],
    ns: &mut [u32; 112],
    ks: &mut [u32; 112],
    turn: Turn,
    steps: &[u16; 112],
    limits: &[u16; 112],
    totals: &[u32; 4],
    next: &[u8; 65],
    digits: &[u8; 65],
    flatness: &[u32; 27],
    first: &[u16; 432],
    second: &[u16; 432],
) -> Option<Place>
    requires pair_asks { PairAsks turn.spot turn.base from block.now lines.old sums.old ns.old ks.old
        steps.now limits.now totals.now next.now digits.now }
    requires by_flatness { ByFlatness turn.base flatness.now × BothOdd turn lines.old first.now second.now }
    ensures { PairGives turn.spot turn.base block.now (odd_steps turn.spot.plan turn.spot.p)
        (held lines.old sums.old ns.old from)
        lines.new sums.new ns.new ks.new result }
{
    let spot = turn.spot;
    let c = one_sample::odd_coding(lines, first, turn, spot.plan.first, flatness, limits, ks);
    let (code, between) = one_sample::taken(block, from, c, spot.bits)?;
    one_sample::put_sample(lines, c, steps, totals, code);
    pass_ahead::update_by(sums, ns, ks, next, digits, c.slot, code);
    let c = one_sample::odd_coding(lines, second, turn, spot.plan.second, flatness, limits, ks);
    let (code, after) = one_sample::taken(block, between, c, spot.bits)?;
    one_sample::put_sample(lines, c, steps, totals, code);
    pass_ahead::update_by(sums, ns, ks, next, digits, c.slot, code);
    Some(after)
}

// n turns of a pass, from position `spot.p` on: an even position, and the odd one seven before it, where they are positions of the line.
fn chunk(
    block: &[u8],
    from: Place,
    lines: &mut [u16],
    sums: &mut [u32; 112],
    ns: &mut [u32; 112],
    ks: &mut [u32; 112],
    spot: Spot,
    base: u32,
    n: usize,
    steps: &[u16; 112],
    limits: &[u16; 112],
    totals: &[u32; 4],
    next: &[u8; 65],
    digits: &[u8; 65],
    flatness: &[u32; 27],
    first: &[u16; 432],
    second: &[u16; 432],
) -> Option<Place>
    requires chunk_asks { ChunkAsks spot base n from block.now lines.old sums.old ns.old ks.old
        steps.now limits.now totals.now next.now digits.now flatness.now }
    requires ahead { Ahead base spot.w lines.old spot.plan.first spot.p n first.now
        × Ahead base spot.w lines.old spot.plan.second spot.p n second.now }
    ensures { PairGives spot base block.now (chunk_steps spot.w spot.plan spot.p n)
        (held lines.old sums.old ns.old from)
        lines.new sums.new ns.new ks.new result }
{
    let w = spot.w;
    let bits = spot.bits;
    let plan = spot.plan;
    let c = spot.p;
    // By its parts, not as a whole: with the padding of a `Place` LLVM would keep it in memory, and copy it at each sample.
    let mut place = Place {
        at: from.at,
        tight: from.tight,
        long: from.long,
    };
    let first_codes = pass_schedule::even_codes(plan.first_rule);
    let second_codes = pass_schedule::even_codes(plan.second_rule);
    for h in 0..n {
        let p = c + 2 * h;
        if p < w {
            place = even_pair(
                block,
                place,
                lines,
                sums,
                ns,
                ks,
                Turn {
                    spot: Spot { w, bits, plan, p },
                    base,
                    entry: h,
                },
                steps,
                limits,
                totals,
                next,
                digits,
                first,
                second,
                &first_codes,
                &second_codes,
            )?;
        }
        if p >= 8 {
            place = odd_pair(
                block,
                place,
                lines,
                sums,
                ns,
                ks,
                Turn {
                    spot: Spot {
                        w,
                        bits,
                        plan,
                        p: p - 7,
                    },
                    base,
                    entry: h,
                },
                steps,
                limits,
                totals,
                next,
                digits,
                flatness,
                first,
                second,
            )?;
        }
    }
    Some(place)
}

// A pass; None where no one bit is left. It goes 48 turns at a time: for more the arrays of what is known ahead would take more stack than a call may.
pub fn pass(
    block: &[u8],
    from: Place,
    lines: &mut [u16],
    set: Set,
    w: usize,
    plan: Plan,
    qs: Quantisers,
    bits: u32,
) -> Option<Passed>
    requires { PassAsks bits w plan qs from block.now lines.old set }
    ensures { PassGives bits w plan qs block.now (begun lines.old set from) lines.new result }
{
    let mut sums = set.sums;
    let mut ns = set.ns;
    let mut ks = pass_steps::ks_of(&sums, &ns);
    let base = qs.base;
    let totals = qs.totals;
    let four = qs.limits;
    let limits = one_sample::limits_of(four);
    let steps = pass_ahead::by_slot((2 * base + 1) as u16, 1, 3, 5);
    let flatness = pass_ahead::by_flatness(base);
    let next = pass_ahead::next_table();
    let digits = pass_ahead::digits_table();
    let mut first = [0u16; 432];
    let mut second = [0u16; 432];
    // By its parts, not as a whole: with the padding of a `Place` LLVM would keep it in memory, and copy it at each sample.
    let mut place = Place {
        at: from.at,
        tight: from.tight,
        long: from.long,
    };
    for i in 0..(w + 8).div_ceil(96) {
        let c = 96 * i;
        let n = ((w + 8 - c) / 2).min(48);
        pass_ahead::fill(lines, w, plan.first, c, n, base, &mut first);
        pass_ahead::fill(lines, w, plan.second, c, n, base, &mut second);
        place = chunk(
            block,
            place,
            lines,
            &mut sums,
            &mut ns,
            &mut ks,
            Spot {
                w,
                bits,
                plan,
                p: c,
            },
            base,
            n,
            &steps,
            &limits,
            &totals,
            &next,
            &digits,
            &flatness,
            &first,
            &second,
        )?;
    }
    Some(Passed {
        place,
        set: Set { sums, ns },
    })
}
