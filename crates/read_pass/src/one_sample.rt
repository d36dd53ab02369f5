// One sample of a pass. Each of these functions is small enough to be taken into the loop from every place that calls it. Made of them, the pairs have half the
// statements and half the locals, by whose product their check time goes.
ghost use Rattle.std.specs.Prelude.{◌≡◌, ◌+◌, ◌-◌, ◌*◌, ◌/◌, ◌%◌, ◌^◌, ◌≤◌, ◌<◌, eqb, length, get_or, set};
ghost use Rattle.code.specs.Codes.{code_at};
ghost use Rattle.code.specs.Inside.{Small};
ghost use Rattle.code.specs.Samples.{sample_of};
ghost use Rattle.code.specs.Inside.{taken_of};
ghost use Rattle.pass_steps.specs.Values.{odd_at};
ghost use Rattle.pass_ahead.specs.Odds.{ByFlatness};
ghost use Rattle.pass_ahead.specs.Arrays.{Filled, left_at, OddHere};
ghost use Rattle.pass_ahead.specs.Tables.{choice_at, BySlot};
ghost use Rattle.read_pass.specs.Sites.{coding_by, OddCoding, CodingFits, LimitsFit, RawFits};

use crate::Turn;
use code::Place;

// How a sample is coded: one place before it among the colour lines, its prediction, its record's place in the set, a number that is odd where its gradient is
// negative, the record's k, the largest sample, and the limit of its quantiser.
#[derive(Clone, Copy)]
pub struct Coding {
    pub place: usize,
    pub prediction: u32,
    pub slot: usize,
    pub flip: u32,
    pub k: u32,
    pub m: u32,
    pub limit: u32,
}

// How a sample is coded, once the place of its record is known.
fn coding_by(
    place: usize,
    prediction: u32,
    slot: usize,
    flip: u32,
    bits: u32,
    limits: &[u16; 112],
    ks: &[u32; 112],
) -> Coding
    requires { (bits ≤ 16) × (slot < 112) }
    ensures { result ≡ coding_by bits place prediction slot flip limits.now ks.now }
{
    Coding {
        place,
        prediction,
        slot,
        flip,
        k: pass_steps::k_at(ks, slot),
        m: quantiser::largest(bits),
        limit: u32::from(limits[slot]),
    }
}

// Of an even position, by entry h of what is known ahead.
pub fn even_coding(
    ahead: &[u16; 432],
    h: usize,
    place: usize,
    bits: u32,
    limits: &[u16; 112],
    ks: &[u32; 112],
) -> Coding
    requires { (bits ≤ 16) × ((h < 48) × (get_or ahead.now (48 + h) 0 < 224)) }
    ensures value { result ≡ coding_by bits place (get_or ahead.now h 0) (get_or ahead.now (48 + h) 0 / 2) (get_or ahead.now (48 + h) 0)
        limits.now ks.now }
    ensures prediction_bound { (result.prediction < 2 ^ 16) × (result.flip < 2 ^ 16) }
{
    let look = u32::from(ahead[48 + h]);
    coding_by(
        place,
        u32::from(ahead[h]),
        (look / 2) as usize,
        look,
        bits,
        limits,
        ks,
    )
}

// Of an odd one, which the samples beside it decide too.
pub fn odd_coding(
    lines: &[u16],
    ahead: &[u16; 432],
    turn: Turn,
    line: usize,
    flatness: &[u32; 27],
    limits: &[u16; 112],
    ks: &[u32; 112],
) -> Coding
    requires bits_bound { (turn.spot.bits ≤ 16) × ((turn.spot.w ≤ 512) × ((turn.spot.p < turn.spot.w)
        × ((2 ≤ line) × ((line ≤ 17) × ((turn.base < 256) × (turn.entry < 48)))))) }
    requires w_in_bounds { (line + 1) * (turn.spot.w + 2) ≤ length lines.now }
    requires by_flatness { ByFlatness turn.base flatness.now × OddHere turn.base turn.spot.w lines.now line turn.spot.p turn.entry ahead.now }
    ensures { OddCoding turn.spot.bits turn.base (odd_at lines.now (turn.spot.w + 2) (left_at turn.spot.w line turn.spot.p))
        (left_at turn.spot.w line turn.spot.p) limits.now ks.now result }
{
    let s = turn.spot.w + 2;
    let place = pass_steps::left_of(turn.spot.w, line, turn.spot.p);
    let aim = pass_ahead::odd_aim_at(lines, s, place, turn.base, flatness, ahead, turn.entry);
    let prediction = pass_ahead::odd_prediction_at(lines, s, place, ahead, turn.entry);
    coding_by(
        place,
        prediction,
        aim.slot,
        aim.flip,
        turn.spot.bits,
        limits,
        ks,
    )
}

// What the slow reader took, put together anew. As it is it lies in memory, and whatever is taken at once would go there too.
fn in_parts(t: Option<(u32, Place)>) -> Option<(u32, Place)>
    ensures { result ≡ t }
{
    let (value, place) = t?;
    Some((
        value,
        Place {
            at: place.at,
            tight: place.tight,
            long: place.long,
        },
    ))
}

// What is taken of a sample's code, and where the reading is after it: at once where the code is short and tight, and else by the slow reader, which is
// asked for the raw bits too. None where no one bit is left.
// INLINING: the slow reader has two calls that differ. With one LLVM inlines it here, and this is then too large for the loop.
pub fn taken(block: &[u8], from: Place, c: Coding, bits: u32) -> Option<(u32, Place)>
    requires block_len_bound { (length block.now < 2 ^ 32) × ((c.k ≤ 15) × ((c.limit < 64) × RawFits bits c.limit)) }
    requires long_le_at { from.long ≤ from.at.0 }
    ensures { (result ≡ taken_of c.m from.tight from.long
        (code_at block.now from.at.0 c.k c.limit (4 * bits - 1 - c.limit))) × Small result }
{
    let found = code_reader::short_code(block, from.at, c.m, c.k, c.limit);
    let Some((value, at)) = found else {
        let raw = 4 * bits - 1 - c.limit;
        let got = if c.k == 0 {
            code_reader::take_any(block, from.at, from.tight, from.long, c.m, 0, c.limit, raw)
        } else {
            code_reader::take_any(
                block, from.at, from.tight, from.long, c.m, c.k, c.limit, raw,
            )
        };
        return in_parts(got);
    };
    Some((
        value,
        Place {
            at,
            tight: from.tight,
            long: from.long,
        },
    ))
}

// The sample of a code is put in its place.
pub fn put_sample(lines: &mut [u16], c: Coding, steps: &[u16; 112], totals: &[u32; 4], code: u32)
    requires coding_fits { CodingFits lines.old c × ((code < 63 * 2 ^ 15) × (get_or totals.now (choice_at c.slot) 0 ≤ 2 ^ 16)) }
    requires slot_bound { (get_or steps.now c.slot 0 < 512) × (get_or steps.now c.slot 0 % 2 ≡ 1) }
    ensures { lines.new ≡ set lines.old (c.place + 1)
        (sample_of c.m (get_or steps.now c.slot 0 / 2) (get_or totals.now (choice_at c.slot) 0)
        (eqb (c.flip % 2) 1) c.prediction code) }
{
    let slot = c.slot;
    let i = c.place + 1;
    lines[i] = pass_ahead::sample_by(
        c.m,
        u32::from(steps[slot]),
        totals,
        slot,
        c.flip,
        c.prediction,
        code,
    ) as u16;
}

// The limits of the quantisers, by the places of their records.
pub fn limits_of(limits: [u32; 4]) -> [u16; 112]
    requires { LimitsFit limits }
    ensures { Filled 112 (BySlot (get_or limits 0 0) (get_or limits 1 0) (get_or limits 2 0) (get_or limits 3 0)) 112 result }
{
    pass_ahead::by_slot(
        limits[0] as u16,
        limits[1] as u16,
        limits[2] as u16,
        limits[3] as u16,
    )
}
