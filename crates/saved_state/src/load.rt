// Stored bytes: whether they are a state of this block, and what they hold.
ghost use Rattle.std.specs.Prelude.{◌≡◌, true, false, not, ◌+◌, ◌-◌, ◌*◌, ◌^◌, ◌≤◌, ◌<◌, eqb, length, get_or};
ghost use Rattle.saved_state.specs.Checkpoints.{be_at, any_below, bad_record, bad_sample, bad_place, bad_checkpoint};
ghost use Rattle.saved_state.specs.Checkpoints.{other_checkpoint, checked_of, loaded_record, with_kept, with_six, with_guards, loaded_lines};

use crate::store::kept_line;
use colour_lines::start_of;
use statistics::Record;
use stream::Refusal;

// The block that a call goes on in: its header's depth and lines, the samples of its colour lines, and the length of its bytes.
#[derive(Clone, Copy)]
pub struct Bounds {
    pub w: usize,
    pub bits: u32,
    pub lines: usize,
    pub bytes: usize,
}

// The number that the n bytes from i on make. Not std's `from_be_bytes`, which would be four functions: n is 1, 2, 4 or 8.
fn be_at(s: &[u8], i: usize, n: usize) -> u64
    requires { (n ≤ 8) × (i + n ≤ length s.now) }
    ensures { (result ≡ be_at s.now i n) × (result < 256 ^ n) }
{
    let mut x = 0u64;
    for k in 0..n {
        x = x * 256 + u64::from(s[i + k]);
    }
    x
}

// A sum of 2^26 or more, or an n outside 1 to 64.
fn is_bad_record(s: &[u8], j: usize) -> bool
    requires { (1707 ≤ length s.now) × (j < 336) }
    ensures { result ≡ bad_record s.now j }
{
    let sum = be_at(s, 27 + 5 * j, 4);
    let n = be_at(s, 27 + 5 * j + 4, 1);
    limits::is_no_record(sum, n)
}

fn has_bad_record(s: &[u8]) -> bool
    requires { 1707 ≤ length s.now }
    ensures { result ≡ any_below 336 (bad_record s.now) }
{
    for j in 0..336 {
        if is_bad_record(s, j) {
            return true;
        }
    }
    false
}

// A sample above 2^bits - 1.
fn is_bad_sample(s: &[u8], bits: u32, j: usize) -> bool
    requires { (bits ≤ 16) × ((j < 2 ^ 32) × (1707 + 2 * j + 2 ≤ length s.now)) }
    ensures { result ≡ bad_sample bits s.now j }
{
    numbers::power(bits) <= be_at(s, 1707 + 2 * j, 2)
}

fn has_bad_sample(s: &[u8], bits: u32, w: usize) -> bool
    requires { (bits ≤ 16) × ((w ≤ 512) × (1707 + 12 * w ≤ length s.now)) }
    ensures { result ≡ any_below (6 * w) (bad_sample bits s.now) }
{
    let end = 6 * w;
    for j in 0..end {
        if is_bad_sample(s, bits, j) {
            return true;
        }
    }
    false
}

// A line above lines, or a bit position past 8 * length + 7.
fn is_bad_place(s: &[u8], lines: usize, bytes: usize) -> bool
    requires { (1707 ≤ length s.now) × (bytes < 2 ^ 32) }
    ensures { result ≡ bad_place lines bytes s.now }
{
    let next = be_at(s, 17, 2);
    let at = be_at(s, 19, 8);
    ((lines as u64) < next) | limits::is_past_end(bytes, at)
}

fn is_bad(s: &[u8], b: Bounds) -> bool
    requires { (b.bits ≤ 16) × ((b.w ≤ 512) × (b.bytes < 2 ^ 32)) }
    ensures value { result ≡ bad_checkpoint b.w b.bits b.lines b.bytes s.now }
    ensures s_len { result ≡ false → length s.now ≡ 1707 + 12 * b.w }
{
    if s.len() != 1707 + 12 * b.w {
        return true;
    }
    if is_bad_place(s, b.lines, b.bytes) {
        return true;
    }
    if has_bad_record(s) {
        return true;
    }
    has_bad_sample(s, b.bits, b.w)
}

// Another header.
fn has_other_header(s: &[u8], d: &[u8]) -> bool
    requires { (16 ≤ length s.now) × (16 ≤ length d.now) }
    ensures { result ≡ any_below 16 (λ i. not (eqb (get_or s.now i 0) (get_or d.now i 0))) }
{
    s[..16] != d[..16]
}

// Another header, or another block.
fn is_other(s: &[u8], d: &[u8], block: usize) -> bool
    requires { (17 ≤ length s.now) × (16 ≤ length d.now) }
    ensures { result ≡ other_checkpoint d.now block s.now }
{
    if has_other_header(s, d) {
        return true;
    }
    u64::from(s[16]) != block as u64
}

// What stored bytes are to a call on that block of a stream: the next line and the bit position to go on from; refusal 21 where they are no state, and
// 22 where they are that of another header or block.
pub fn check(s: &[u8], b: Bounds, d: &[u8], block: usize) -> Result<(usize, u64), Refusal>
    requires bits_bound { (b.bits ≤ 16) × ((b.w ≤ 512) × (b.bytes < 2 ^ 32)) }
    requires in_bounds { 16 ≤ length d.now }
    ensures { result ≡ checked_of b.w b.bits b.lines b.bytes d.now block s.now }
{
    if is_bad(s, b) {
        return Err(Refusal::BadState);
    }
    if is_other(s, d, block) {
        return Err(Refusal::OtherState);
    }
    Ok((be_at(s, 17, 2) as usize, be_at(s, 19, 8)))
}

// Record j, where the block starts with `start`. A sum that no block reaches is cut.
pub fn load_record(s: &[u8], j: usize, lossless: bool, start: Record) -> Record
    requires { (1707 ≤ length s.now) × (j < 336) }
    ensures { result ≡ loaded_record lossless start s.now j }
{
    if lossless & limits::is_flat(j) {
        return start;
    }
    let sum = be_at(s, 27 + 5 * j, 4) as u32;
    let n = be_at(s, 27 + 5 * j + 4, 1) as u32;
    Record {
        sum: sum.min(n * 1_032_192),
        n,
    }
}

// The samples of the m-th line that was kept.
fn load_line(s: &[u8], lines: &mut [u16], w: usize, m: usize)
    requires { (w ≤ 512) × ((m < 6) × ((1707 + 12 * w ≤ length s.now) × (18 * (w + 2) ≤ length lines.old))) }
    ensures { lines.new ≡ with_kept w s.now m lines.old }
{
    let first = m * w;
    let from = start_of(w, kept_line(m)) + 1;
    for p in 0..w {
        lines[from + p] = be_at(s, 1707 + 2 * (first + p), 2) as u16;
    }
}

// All six, where the turn to the next line finds them.
fn load_six(s: &[u8], lines: &mut [u16], w: usize)
    requires { (w ≤ 512) × ((1707 + 12 * w ≤ length s.now) × (18 * (w + 2) ≤ length lines.old)) }
    ensures { lines.new ≡ with_six w s.now lines.old }
{
    for m in 0..6 {
        load_line(s, lines, w, m);
    }
}

// The guards of the nearer one of each colour: they are not stored, and the next line's contexts look at them.
fn set_near_guards(lines: &mut [u16], w: usize)
    requires { (w ≤ 512) × (18 * (w + 2) ≤ length lines.old) }
    ensures { lines.new ≡ with_guards w lines.old }
{
    colour_lines::set_guards(lines, w, 4);
    colour_lines::set_guards(lines, w, 12);
    colour_lines::set_guards(lines, w, 17);
}

// The lines of a stored state.
pub fn load_lines(s: &[u8], lines: &mut [u16], w: usize)
    requires { (w ≤ 512) × ((1707 + 12 * w ≤ length s.now) × (18 * (w + 2) ≤ length lines.old)) }
    ensures { lines.new ≡ loaded_lines w s.now lines.old }
{
    load_six(s, lines, w);
    set_near_guards(lines, w);
}
