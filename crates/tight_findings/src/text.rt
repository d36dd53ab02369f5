// What is found in a stream that is not tight, and its text. It is not written by `write!`: `report` promises each byte of lent memory
// (`text_of`), and std has no writer over a slice.
ghost use Rattle.std.specs.Prelude.{◌≡◌, ◌+◌, ◌≤◌, length, Ok, Err};
ghost use Rattle.tight_findings.specs.Texts.{heading, number_text, field, reason_text, code_text, tail_record, text_of};
ghost use Rattle.tight_findings.specs.Inside.{Put};

use bits::BitPosition;
use code::{BadSpot, Reason};
use stream::Refusal;
use tight_diagnosis::Fault;

// Puts a text into a buffer from a place on, and says where it ends.
fn put(out: &mut [u8], at: usize, text: &[u8]) -> usize
    requires { at + length text.now ≤ length out.old }
    ensures { Put out.old at text.now out.new result }
{
    let end = at + text.len();
    out[at..end].copy_from_slice(text);
    end
}

fn put_number(out: &mut [u8], at: usize, n: u64) -> usize
    requires { at + 20 ≤ length out.old }
    ensures { Put out.old at (number_text n) out.new result × (result ≤ at + 20) }
{
    let mut digits = [0u8; 20];
    let k = io::decimal(n, &mut digits);
    put(out, at, &digits[..k])
}

// A number, with the tab after it.
fn put_field(out: &mut [u8], at: usize, n: u64) -> usize
    requires { at + 21 ≤ length out.old }
    ensures { Put out.old at (field n) out.new result × (result ≤ at + 21) }
{
    let end = put_number(out, at, n);
    put(out, end, b"\t")
}

fn put_reason(out: &mut [u8], at: usize, reason: Reason) -> usize
    requires { at + 7 ≤ length out.old }
    ensures { Put out.old at (reason_text reason) out.new result × (result ≤ at + 7) }
{
    match reason {
        Reason::Large => put(out, at, b"large\n"),
        Reason::Escape => put(out, at, b"escape\n"),
        Reason::Zeros => put(out, at, b"zeros\n"),
    }
}

fn put_code(out: &mut [u8], at: usize, b: usize, x: BadSpot) -> usize
    requires { at + 133 ≤ length out.old }
    ensures { Put out.old at (code_text b x) out.new result × (result ≤ at + 133) }
{
    let bit = x.at;
    let reason = x.reason;
    let at1 = put_field(out, at, b as u64);
    let at2 = put_field(out, at1, x.line as u64);
    let at3 = put_field(out, at2, x.pass as u64);
    let at4 = put_field(out, at3, x.colour as u64);
    let at5 = put_field(out, at4, x.position as u64);
    let at6 = put_field(out, at5, bit.0);
    put_reason(out, at6, reason)
}

fn put_tail(out: &mut [u8], at: usize, b: usize, lines: usize, bit: BitPosition) -> usize
    requires { at + 74 ≤ length out.old }
    ensures { Put out.old at (tail_record b lines bit) out.new result × (result ≤ at + 74) }
{
    let at1 = put_field(out, at, b as u64);
    let at2 = put_field(out, at1, lines as u64);
    let at3 = put(out, at2, b"-\t-\t-\t");
    let at4 = put_field(out, at3, bit.0);
    put(out, at4, b"tail\n")
}

fn put_heading(out: &mut [u8]) -> usize
    requires { 43 ≤ length out.old }
    ensures { Put out.old 0 heading out.new result × (result ≡ 43) }
{
    put(
        out,
        0,
        b"block\tline\tpass\tcolour\tposition\tbit\treason\n",
    )
}

fn put_refusal(out: &mut [u8], x: Refusal) -> usize
    requires { 21 ≤ length out.old }
    ensures { Put out.old 0 (text_of (Err x)) out.new result × (result ≤ 21) }
{
    let w = stream::refusal_words(x);
    let end = put_number(out, 0, w[0] as u64);
    put(out, end, b"\n")
}

// The text of the lowest block that gives 15 and why, or of none, at the start of a buffer, and how long it is.
fn put_found(out: &mut [u8], found: Option<(usize, Fault)>) -> usize
    requires { 256 ≤ length out.old }
    ensures { Put out.old 0 (text_of (Ok found)) out.new result × (result ≤ 256) }
{
    let end = put_heading(out);
    let Some((b, fault)) = found else {
        return end;
    };
    match fault {
        Fault::Code(x) => put_code(out, end, b, x),
        Fault::Tail(lines, at) => put_tail(out, end, b, lines, at),
    }
}

// The text of what is found in a stream, at the start of a buffer, and how long it is.
pub fn put_finding(out: &mut [u8], f: Result<Option<(usize, Fault)>, Refusal>) -> usize
    requires { 256 ≤ length out.old }
    ensures { Put out.old 0 (text_of f) out.new result × (result ≤ 256) }
{
    match f {
        Err(x) => put_refusal(out, x),
        Ok(found) => put_found(out, found),
    }
}
