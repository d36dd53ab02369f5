// The state of a block after a line, as bytes: storing, judging and loading it.
ghost use Rattle.std.specs.Prelude.{◌≡◌, ◌+◌, ◌-◌, ◌*◌, ◌/◌, ◌%◌, ◌≤◌, ◌<◌, length};
ghost use Rattle.saved_state.specs.Heads.{put_each};
ghost use Rattle.saved_state.specs.Checkpoints.{stored_record, record_byte, records_byte, kept_line, lines_byte};
ghost use Rattle.pass_steps.specs.Values.{records_of};

use colour_lines::start_of;
use pass_steps::Set;
use statistics::Record;

// What record j is stored as. A lossless block uses no flat record.
fn stored_record(lossless: bool, j: usize, r: Record) -> Record
    ensures { result ≡ stored_record lossless j r }
{
    if lossless & limits::is_flat(j) {
        return Record { sum: 0, n: 1 };
    }
    r
}

fn record_byte(r: Record, k: usize) -> u8
    requires { k < 5 }
    ensures { result ≡ record_byte r k }
{
    if k < 4 {
        return crate::head::be_byte(4, k as u32, r.sum as u64);
    }
    crate::head::be_byte(1, 0, r.n as u64)
}

// Byte i of the records of a set, where record i / 5 is r.
fn set_byte(r: Record, lossless: bool, i: usize) -> u8
    ensures { result ≡ record_byte (stored_record lossless (i / 5) r) (i % 5) }
{
    record_byte(stored_record(lossless, i / 5, r), i % 5)
}

// The records of set g.
pub fn store_set(out: &mut [u8], g: usize, set: Set, lossless: bool)
    requires { (1707 ≤ length out.old) × (g < 3) }
    ensures { out.new ≡ put_each (records_byte lossless (records_of set)) (27 + 560 * g) 560 out.old }
{
    let from = 27 + 560 * g;
    let sums = set.sums;
    let ns = set.ns;
    for i in 0..560 {
        let j = i / 5;
        let r = Record {
            sum: sums[j],
            n: ns[j],
        };
        out[from + i] = set_byte(r, lossless, i);
    }
}

// The lines that are kept: the last two of each colour.
pub(crate) fn kept_line(m: usize) -> usize
    ensures { (result ≡ kept_line m) × ((3 ≤ result) × (result ≤ 17)) }
{
    match m {
        0 => 3,
        1 => 4,
        2 => 11,
        3 => 12,
        4 => 16,
        _ => 17,
    }
}

// Byte i of the samples of the lines that are kept.
fn line_byte(lines: &[u16], w: usize, i: usize) -> u8
    requires { (1 ≤ w) × ((w ≤ 512) × ((18 * (w + 2) ≤ length lines.now) × (i < 12 * w))) }
    ensures { result ≡ lines_byte w lines.now i }
{
    let j = i / 2;
    let at = start_of(w, kept_line(j / w)) + (j % w + 1);
    crate::head::be_byte(2, (i % 2) as u32, u64::from(lines[at]))
}

// Their samples.
pub fn store_lines(out: &mut [u8], lines: &[u16], w: usize)
    requires { (1 ≤ w) × ((w ≤ 512) × ((18 * (w + 2) ≤ length lines.now) × (1707 + 12 * w ≤ length out.old))) }
    ensures { out.new ≡ put_each (lines_byte w lines.now) 1707 (12 * w) out.old }
{
    let end = 12 * w;
    for i in 0..end {
        out[1707 + i] = line_byte(lines, w, i);
    }
}
