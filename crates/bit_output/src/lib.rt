// Document 01, Tight block: bits stored into bytes, most significant first. The writer's counterpart of `bits`.
#![tactic(auto)]

ghost use Rattle.std.specs.Prelude.{◌≡◌, ◌++◌, ◌+◌, ◌-◌, ◌*◌, ◌/◌, ◌%◌, ◌^◌, ◌≤◌, ◌<◌, length, take, drop};
ghost use Rattle.bits.specs.BitLists.{binary, packed};
ghost use Rattle.bits.specs.Inside.{bytes_for};
ghost use Rattle.bit_output.specs.Output.{put_bits};

use bits::BitPosition;

// The next t of the last `left` bits of a number.
fn next_bits(value: u64, left: u32, t: u32) -> u32
    requires { (1 ≤ t) × ((t ≤ 8) × ((t ≤ left) × (left ≤ 64))) }
    ensures { (result ≡ value / 2 ^ (left - t) % 2 ^ t) × (result < 2 ^ t) }
{
    ((value >> (left - t)) % numbers::power(t)) as u32
}

// A byte of which the first `used` bits stay, t bits follow, and the rest is 0.
fn filled(old: u8, used: u32, t: u32, part: u32) -> u8
    requires { (used < 8) × ((used + t ≤ 8) × (part < 2 ^ t)) }
    ensures { result ≡ old / 2 ^ (8 - used) * 2 ^ (8 - used) + part * 2 ^ (8 - used - t) }
{
    let kept = (u32::from(old) >> (8 - used)) << (8 - used);
    (kept + (part << (8 - used - t))) as u8
}

// The last n bits of a number go to the output from bit `at` on, byte after byte. What follows them in their last byte is 0.
fn put_by_bytes(out: &mut [u8], at: BitPosition, n: u32, value: u64)
    requires { (n ≤ 64) × ((at.0 < 2 ^ 60) × (bytes_for (at.0 + n) ≤ length out.old)) }
    ensures { out.new ≡ put_bits out.old at.0 (binary n value) }
{
    // A `while`: a turn goes up to the end of a byte, so that turns differ in how many bits they put.
    let mut left = n;
    let mut here = at;
    while left > 0 {
        let used = here.in_byte();
        let t = (8 - used).min(left);
        let from = here.byte();
        let i = from.0;
        out[i] = filled(out[i], used, t, next_bits(value, left, t));
        here = here.ahead(t);
        left -= t;
    }
}

// Four bytes as a number: the first `used` bits stay, the last n bits of the value follow, then zeros to the end of a byte, and the bytes after
// that one stay. The value goes to the top of its word and down again, so that its other bits are left out.
fn merged(old: u64, used: u32, n: u32, value: u64) -> u64
    requires { (old < 2 ^ 32) × ((used < 8) × ((1 ≤ n) × (used + n ≤ 24))) }
    ensures value { result ≡ old / 2 ^ (32 - used) * 2 ^ (32 - used) + value % 2 ^ n * 2 ^ (32 - used - n) + old % 2 ^ (32 - 8 * bytes_for (used + n)) }
    ensures upper_bound { result < 2 ^ 32 }
{
    let kept = (old >> (32 - used)) << (32 - used);
    let new = (value << (64 - n)) >> (32 + used);
    let low = old % (1u64 << (32 - 8 * ((used + n + 7) / 8)));
    kept + new + low
}

// A number as the four bytes from i on.
// INLINING: four stores in a row, of which LLVM makes one byte swap and one store.
fn store32(out: &mut [u8], i: usize, w: u64)
    requires { (i + 4 ≤ length out.old) × (w < 2 ^ 32) }
    ensures { out.new ≡ take i out.old ++ packed 4 (binary 32 w) ++ drop (i + 4) out.old }
{
    out[i] = (w >> 24) as u8;
    out[i + 1] = ((w >> 16) % 256) as u8;
    out[i + 2] = ((w >> 8) % 256) as u8;
    out[i + 3] = (w % 256) as u8;
}

// The last n bits of a number go to the output from bit `at` on. What follows them in their last byte is 0. Where they end within three bytes,
// four are changed at once: how often the loop turns cannot be foretold, and that takes longer.
pub fn put_bits(out: &mut [u8], at: BitPosition, n: u32, value: u64)
    requires { (1 ≤ n) × ((n ≤ 64) × ((at.0 < 2 ^ 60) × (bytes_for (at.0 + n) ≤ length out.old))) }
    ensures { out.new ≡ put_bits out.old at.0 (binary n value) }
{
    let used = at.in_byte();
    let from = at.byte();
    let i = from.0;
    if (used + n <= 24) & (i + 4 <= out.len()) {
        store32(out, i, merged(bits::load32(out, i), used, n, value));
        return;
    }
    put_by_bytes(out, at, n, value)
}
