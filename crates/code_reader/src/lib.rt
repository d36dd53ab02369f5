// Document 01, Code: one code of a block, read by a pump.
#![tactic(auto)]

ghost use Rattle.std.specs.Prelude.{◌≡◌, ◌^◌, ◌≤◌, ◌<◌, length};
ghost use Rattle.bits.specs.Inside.{word_at};
ghost use Rattle.code.specs.Codes.{code_at};
ghost use Rattle.code.specs.Inside.{Bounds, Small};
ghost use Rattle.code.specs.Inside.{taken_of, short_at};

use bit_pump::BitPumpMsb;
use bits::BitPosition;
use code::{Code, Place};

// The next code of a pump, however long its zero run is and however near the end it stands.
fn next_code<'s, 'a>(p: &'s mut BitPumpMsb<'a>, k: u32, limit: u32, raw: u32) -> Option<Code>
    requires { (length p.old.«data».now < 2 ^ 32) × ((k ≤ 15) × ((limit < 64) × (raw ≤ 16))) }
    ensures { result ≡ code_at p.old.«data».now p.old.at.0 k limit raw }
{
    let zeros = p.zero_run()?;
    if code::is_long(limit, zeros) {
        let value = p.get(raw) + 1;
        let after = p.bit_position();
        return Some(Code {
            zeros,
            value,
            minimal: code::is_needed(k, limit, zeros, value),
            long: true,
            used: zeros + 1 + raw as u64,
            after,
        });
    }
    let low = p.get(k);
    let after = p.bit_position();
    Some(Code {
        zeros,
        value: ((zeros as u32) << k) + low,
        minimal: true,
        long: false,
        used: zeros + 1 + k as u64,
        after,
    })
}

// The code at `at`, by a pump.
pub fn read_code(s: &[u8], at: BitPosition, k: u32, limit: u32, raw: u32) -> Option<Code>
    requires { (length s.now < 2 ^ 32) × ((k ≤ 15) × ((limit < 64) × (raw ≤ 16))) }
    ensures { (result ≡ code_at s.now at.0 k limit raw) × Bounds s.now result }
{
    let mut p = BitPumpMsb::at_bit(s, at);
    next_code(&mut p, k, limit, raw)
}

// The next bits at `at`, by a pump.
fn next_word(s: &[u8], at: BitPosition) -> u64
    ensures { result ≡ word_at s.now at.0 }
{
    BitPumpMsb::at_bit(s, at).peek_word()
}

// What a pass takes of the code at `at`, whatever it is, and where the reading is after it.
// INLINING: it is called from several places, so that LLVM does not inline it into the loop. Where the reading is comes in
// parts: a `Place` would go through memory, before each code.
pub fn take_any(
    s: &[u8],
    at: BitPosition,
    tight: bool,
    long: u64,
    m: u32,
    k: u32,
    limit: u32,
    raw: u32,
) -> Option<(u32, Place)>
    requires s_len_bound { (length s.now < 2 ^ 32) × ((k ≤ 15) × ((limit < 64) × (raw ≤ 16))) }
    requires long_le_at { long ≤ at.0 }
    ensures { (result ≡ taken_of m tight long (code_at s.now at.0 k limit raw)) × Small result }
{
    let c = read_code(s, at, k, limit, raw)?;
    Some(code::take(m, tight, long, c))
}

// The same at once in the common case: zeros, one bit and low bits stand in one word of 57 bits or more, and the value is at most m. Such a code is
// short and tight, so that the verdict and the count go on as they are, and are not asked for.
pub fn short_code(
    s: &[u8],
    at: BitPosition,
    m: u32,
    k: u32,
    limit: u32,
) -> Option<(u32, BitPosition)>
    requires { (length s.now < 2 ^ 32) × ((k ≤ 15) × (limit < 64)) }
    ensures { result ≡ short_at m k limit s.now at.0 }
{
    let w = next_word(s, at);
    // At most 41 zeros: with the one bit and 15 low bits they are in the word.
    if w < 0x40_0000 {
        return None;
    }
    let zeros = u64::leading_zeros(w);
    if limit <= zeros {
        return None;
    }
    let used = zeros + 1 + k;
    let low = (w >> (64 - used)) as u32 - (1 << k);
    let value = (zeros << k) + low;
    if m < value {
        return None;
    }
    Some((value, BitPosition(at.0 + used as u64)))
}
